// `row_sums_into` of matrix.rs: the row sums of the face-addressed matrix of a level. `KernelOk`, `sums + s.rows ≤ length f.old` and `row < s.rows` stand in
// each contract: they tie the words, the floats' length and a loop's row to s, and no one value has all of these.
ghost use Rattle.std.specs.Prelude.{◌+◌, ◌<◌, ◌≤◌, length};
ghost use Rattle.store.specs.Region.{Wrote};
ghost use Rattle.matrix.specs.Contract.{KernelOk};
ghost use Rattle.matrix.specs.Kernel.{kernel_at, row_sums_of};
ghost use Rattle.matrix.specs.Turns.{faces_of, SumHeld, SumFaced, SumRowed, Summed};

use crate::matrix::SymmetricMatrix;

// One face of a row whose sum so far is `own`: its neighbour's sum in place, the row's returned. In stores that no build wrote a face
// may lead to its own row, to which it then adds twice.
fn sum_face(
    w: &[u32],
    f: &mut [f64],
    s: SymmetricMatrix,
    sums: usize,
    row: usize,
    face: usize,
    own: f64,
) -> f64
    requires kernel_ok { KernelOk w.now sums s }
    requires rows_in_bounds { sums + s.rows ≤ length f.old }
    requires row_lt_rows { row < s.rows }
    requires face_bound { face < faces_of w.now s }
    ensures { SumHeld w.now s sums row face f.old own f.new result }
{
    let neighbor = store::index_at(w, s.neighbors, face, s.rows);
    let a = f[s.coefficients + face];
    let sum = own + a;
    if neighbor == row {
        return sum + a;
    }
    f[sums + neighbor] = f[sums + neighbor] + a;
    sum
}

// The faces from lo to hi of a row, each added to the row's sum and to its neighbour's. The row's sum is held, so that no face waits
// for the store of the one before.
fn sum_faces(
    w: &[u32],
    f: &mut [f64],
    s: SymmetricMatrix,
    sums: usize,
    row: usize,
    lo: usize,
    hi: usize,
)
    requires kernel_ok { KernelOk w.now sums s }
    requires rows_in_bounds { sums + s.rows ≤ length f.old }
    requires row_lt_rows { row < s.rows }
    requires hi_bound { hi ≤ faces_of w.now s }
    ensures { SumFaced w.now s sums row lo hi f.old f.new }
{
    let mut own = f[sums + row];
    for face in lo..hi {
        own = sum_face(w, f, s, sums, row, face, own);
    }
    f[sums + row] = own;
}

// The faces of one row.
fn sum_row(w: &[u32], f: &mut [f64], s: SymmetricMatrix, sums: usize, row: usize)
    requires kernel_ok { KernelOk w.now sums s }
    requires rows_in_bounds { sums + s.rows ≤ length f.old }
    requires row_lt_rows { row < s.rows }
    ensures { SumRowed w.now s sums row f.old f.new }
{
    let lo = store::wide(w[s.offsets + row]);
    let hi = store::wide(w[s.offsets + row + 1]);
    sum_faces(w, f, s, sums, row, lo, hi);
}

// The faces of every row.
fn sum_rows(w: &[u32], f: &mut [f64], s: SymmetricMatrix, sums: usize)
    requires kernel_ok { KernelOk w.now sums s }
    requires rows_in_bounds { sums + s.rows ≤ length f.old }
    ensures { Summed w.now s sums f.old f.new }
{
    for row in 0..s.rows {
        sum_row(w, f, s, sums, row);
    }
}

// The sum of each row of A.
pub fn row_sums_into(w: &[u32], f: &mut [f64], s: SymmetricMatrix, sums: usize)
    requires kernel_ok { KernelOk w.now sums s }
    requires rows_in_bounds { sums + s.rows ≤ length f.old }
    ensures { Wrote sums s.rows (row_sums_of (kernel_at s w.now f.old)) f.old f.new }
{
    store::copy(f, s.rows, s.diagonal, sums);
    sum_rows(w, f, s, sums);
}
