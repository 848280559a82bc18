// The coupled rows of a matrix, those with an entry off the diagonal (`coupled_rows` of matrix.rs).
ghost use Rattle.std.specs.Prelude.{◌≡◌, ◌<◌};
ghost use Rattle.faces.specs.Faces.{coupled_of};
ghost use Rattle.faces.specs.Contract.{pattern_at, CoupledOk, CoupledCount, CoupledRowsOk, CoupledRows};

use crate::faces::{Faces, push_if};
use store::wide;

// Whether a row that has its diagonal entry has another one.
fn is_coupled(w: &[u32], s: Faces, row: usize) -> bool
    requires coupled_ok { CoupledOk w.now s }
    requires row_lt_rows { row < s.rows }
    ensures { result ≡ coupled_of (pattern_at w.now s) row }
{
    let offsets = s.offsets;
    let start = wide(w[offsets + row]);
    let end = wide(w[offsets + row + 1]);
    start + 1 < end
}

// `coupled_rows` of matrix.rs: the number of rows with an entry off the diagonal.
pub fn coupled_count(w: &[u32], s: Faces) -> usize
    requires { CoupledOk w.now s }
    ensures { CoupledCount w.now s result }
{
    let mut count = 0;
    for row in 0..s.rows {
        if is_coupled(w, s, row) {
            count += 1;
        }
    }
    count
}

// These rows, at `to`.
pub fn coupled_rows(w: &mut [u32], s: Faces, to: usize)
    requires { CoupledRowsOk w.old s to }
    ensures { CoupledRows w.old w.new s to }
{
    let mut count = 0;
    for row in 0..s.rows {
        let coupled = is_coupled(w, s, row);
        count = push_if(w, to, count, row, coupled);
    }
}
