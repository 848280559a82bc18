// The pattern part of `SymmetricMatrix::new` of matrix.rs: the faces of a matrix, one for each entry above the diagonal.
// Everything is a region of one store of words; no value is read.
ghost use Rattle.std.specs.Prelude.{length};
ghost use Rattle.faces.specs.Contract.{OffsetsOk, OffsetsDone, FillOk, Filled};
ghost use Rattle.faces.specs.Steps.{CountOk, Counted, SeekOk, Sought, PushOk, Pushed};

use store::{index_at, wide};

// Where everything stands in the store, and the sizes: the pattern, then from `starts` on what is written, rows + 1 words at
// `starts`, rows at `diagonals`, and `faces` at each of the last three.
#[derive(Clone, Copy)]
pub struct Faces {
    pub rows: usize,
    pub entries: usize,
    pub faces: usize,
    pub offsets: usize,
    pub columns: usize,
    pub starts: usize,
    pub diagonals: usize,
    pub neighbors: usize,
    pub uppers: usize,
    pub lowers: usize,
}

// The faces before the next row, where `found` are before this one.
fn count_row(w: &[u32], s: Faces, row: usize, found: usize) -> usize
    requires { CountOk w.now s row found }
    ensures { Counted w.now s row result }
{
    let start = wide(w[s.offsets + row]);
    let end = wide(w[s.offsets + row + 1]);
    let mut count = found;
    for e in start..end {
        if index_at(w, s.columns, e, s.rows) > row {
            count += 1;
        }
    }
    count
}

// `offsets` of the matrix; the number of faces.
pub fn face_offsets(w: &mut [u32], s: Faces) -> usize
    requires { OffsetsOk w.old s }
    ensures { OffsetsDone w.old w.new s result }
{
    let mut found = 0;
    for row in 0..s.rows {
        let more = count_row(w, s, row, found);
        w[s.starts + row] = found as u32;
        found = more;
    }
    w[s.starts + s.rows] = found as u32;
    found
}

// The row of entry e, looked for from `from` on.
pub fn row_from(w: &[u32], s: Faces, from: usize, e: usize) -> usize
    requires { SeekOk w.now s from e }
    ensures { Sought w.now s e result }
{
    let mut row = from;
    let mut end = wide(w[s.offsets + row + 1]);
    // A while: it goes on up to the row that ends behind the entry, which no range says beforehand.
    while end <= e {
        row += 1;
        end = wide(w[s.offsets + row + 1]);
    }
    row
}

// v behind the k words at `to`, if it is wanted; how many words there are then.
pub fn push_if(w: &mut [u32], to: usize, k: usize, v: usize, wanted: bool) -> usize
    requires { PushOk (length w.old) to k v wanted }
    ensures { Pushed w.old w.new to k v wanted result }
{
    if wanted {
        w[to + k] = v as u32;
        return k + 1;
    }
    k
}

// `neighbors` and `face_entries`: the column and the entry of each face.
pub fn fill_faces(w: &mut [u32], s: Faces)
    requires { FillOk w.old s }
    ensures { Filled w.old w.new s }
{
    let mut row = 0;
    let mut face = 0;
    for e in 0..s.entries {
        row = row_from(w, s, row, e);
        let column = index_at(w, s.columns, e, s.rows);
        let above = column > row;
        push_if(w, s.neighbors, face, column, above);
        face = push_if(w, s.uppers, face, e, above);
    }
}
