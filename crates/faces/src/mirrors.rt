// The mirrors of `SymmetricMatrix::new` of matrix.rs: each is found in the row that holds it, and a matrix that lacks one is
// refused.
ghost use Rattle.faces.specs.Contract.{MirrorsOk, MirrorsDone};
ghost use Rattle.faces.specs.Steps.{FindOk, Found, EntryOk, Entry, MirrorOk};

use crate::faces::{Faces, push_if, row_from};
use store::{index_at, wide};

// The first of the rising columns from lo to hi that is not below `column`; hi where there is none.
fn find(w: &[u32], columns: usize, lo: usize, hi: usize, column: usize) -> usize
    requires { FindOk w.now columns lo hi }
    ensures { Found w.now columns lo hi column result }
{
    let part = &w[columns + lo..columns + hi];
    lo + part.partition_point(|&x| wide(x) < column)
}

// The entry of row i in column j, if there is one.
pub fn entry_at(w: &[u32], s: Faces, i: usize, j: usize) -> Option<usize>
    requires { EntryOk w.now s i }
    ensures { Entry w.now s i j result }
{
    let lo = wide(w[s.offsets + i]);
    let hi = wide(w[s.offsets + i + 1]);
    let e = find(w, s.columns, lo, hi, j);
    if e < hi && wide(w[s.columns + e]) == j {
        Some(e)
    } else {
        None
    }
}

// The mirror of entry e, if it has one. A diagonal entry is its own.
fn mirror_at(w: &[u32], s: Faces, row: usize, column: usize, e: usize) -> Option<usize>
    requires { MirrorOk w.now s row column e }
    ensures { Entry w.now s column row result }
{
    if column == row {
        return Some(e);
    }
    entry_at(w, s, column, row)
}

// `transpose_entries`: the mirror of each face. False where some entry, on either side of the diagonal, has no mirror: question 10.
// Not one walk with `fill_faces`, which goes over the same entries: this one searches each entry's mirror and can stop at it, that one cannot fail and
// writes two numbers a face. A walk over a closure would be a function more, and each loop's body would stand in a closure as it does here.
pub fn mirrors(w: &mut [u32], s: Faces) -> bool
    requires { MirrorsOk w.old s }
    ensures { MirrorsDone w.old w.new s result }
{
    let mut row = 0;
    let mut face = 0;
    for e in 0..s.entries {
        row = row_from(w, s, row, e);
        let column = index_at(w, s.columns, e, s.rows);
        let Some(mirror) = mirror_at(w, s, row, column, e) else {
            return false;
        };
        face = push_if(w, s.lowers, face, mirror, column > row);
    }
    true
}
