// `update` of matrix.rs: a matrix takes its values from the entries of an image.
ghost use Rattle.std.specs.Prelude.{◌+◌, ◌≤◌, length};
ghost use Rattle.store.specs.Region.{part, Wrote};
ghost use Rattle.store.specs.Vector.{tab};
ghost use Rattle.coefficients.specs.Update.{entry_of};
ghost use Rattle.coefficients.specs.Contract.{update_with, update_at, FacesTaken, UpdateOk, Updated, EntriesOk, GivenOk, Inverted, RowsTold, RowsAsked};

use matrix::SymmetricMatrix;
use refusal::Refusal;

// Where an image lies: its values in the floats; in the words the entry of each row's diagonal and of each face.
#[derive(Clone, Copy)]
pub struct Entries {
    pub entries: usize,
    pub diagonals: usize,
    pub faces: usize,
    pub values: usize,
}

// The values of n entries, copied to `to` without a test: those of the diagonals are asked once they stand together, the
// finiteness of the faces' of the whole image.
fn pick(w: &[u32], f: &mut [f64], n: usize, entries: usize, places: usize, values: usize, to: usize)
    requires { EntriesOk w.now (length f.old) n entries places values to }
    ensures { Wrote to n (tab (entry_of (part places n w.now) (part values entries f.old)) n) f.old f.new }
{
    for k in 0..n {
        let entry = store::index_at(w, places, k, entries);
        f[to + k] = f[values + entry];
    }
}

// The reciprocals of the diagonals that stand at `diagonal`, and whether all rows pass questions 12 and 13. No branch leaves
// the loop and no index is looked up, so that it divides several at once.
fn invert(f: &mut [f64], rows: usize, diagonal: usize, inverse: usize) -> bool
    requires rows_bound { diagonal + rows ≤ inverse }
    requires rows_in_bounds { inverse + rows ≤ length f.old }
    ensures { Inverted rows diagonal inverse f.old f.new result }
{
    let mut ok = true;
    for row in 0..rows {
        let d = f[diagonal + row];
        ok = ok & (float::is_positive(d) & float::is_finite(1.0 / d));
        f[inverse + row] = 1.0 / d;
    }
    ok
}

// Questions 12 and 13, row by row, of the diagonal that is written: which row fails first.
fn ask_rows(f: &[f64], rows: usize, diagonal: usize, level: u64) -> Result<(), Refusal>
    requires { diagonal + rows ≤ length f.now }
    ensures { RowsAsked level rows diagonal f.now result }
{
    for row in 0..rows {
        let d = f[diagonal + row];
        if !float::is_positive(d) {
            return Err(Refusal {
                number: refusal::BAD_DIAGONAL,
                level,
                row: row as u64,
            });
        }
        if !float::is_finite(1.0 / d) {
            return Err(Refusal {
                number: refusal::BAD_RECIPROCAL,
                level,
                row: row as u64,
            });
        }
    }
    Ok(())
}

// The reciprocals of the diagonals that stand at `diagonal`: questions 12 and 13. Rows are asked one by one only where one of them fails.
fn settle(
    f: &mut [f64],
    rows: usize,
    diagonal: usize,
    inverse: usize,
    level: u64,
) -> Result<(), Refusal>
    requires rows_bound { diagonal + rows ≤ inverse }
    requires rows_in_bounds { inverse + rows ≤ length f.old }
    ensures { RowsTold level rows diagonal inverse f.old f.new result }
{
    if invert(f, rows, diagonal, inverse) {
        Ok(())
    } else {
        ask_rows(f, rows, diagonal, level)
    }
}

// New values for the matrix at s. Where a diagonal is refused, the rows have been written.
pub fn update(
    w: &[u32],
    f: &mut [f64],
    s: SymmetricMatrix,
    e: Entries,
    level: u64,
) -> Result<(), Refusal>
    requires { UpdateOk w.now (length f.old) s e }
    ensures { Updated w.now s (update_at level s e w.now f.old) f.old f.new result }
{
    let faces = store::wide(w[s.offsets + s.rows]);
    pick(w, f, s.rows, e.entries, e.diagonals, e.values, s.diagonal);
    settle(f, s.rows, s.diagonal, s.inverse, level)?;
    pick(w, f, faces, e.entries, e.faces, e.values, s.coefficients);
    Ok(())
}

// The values of n entries of `given`, copied to `to` without a test. Not one with `pick`, whose values stand in the store that is
// written: they cannot be lent beside it.
pub fn pick_given(w: &[u32], given: &[f64], f: &mut [f64], n: usize, places: usize, to: usize)
    requires { GivenOk w.now (length f.old) n (length given.now) places to }
    ensures { Wrote to n (tab (entry_of (part places n w.now) given.now) n) f.old f.new }
{
    let count = given.len();
    for k in 0..n {
        let entry = store::index_at(w, places, k, count);
        f[to + k] = given[entry];
    }
}

// The same as `update`, of an image that is given in a slice of its own. The faces' values stand already where the coefficients are,
// taken when their mirrors were compared.
pub fn update_given(
    w: &[u32],
    given: &[f64],
    f: &mut [f64],
    s: SymmetricMatrix,
    e: Entries,
    level: u64,
) -> Result<(), Refusal>
    requires update_ok { UpdateOk w.now (length f.old) s e }
    requires entries_in_bounds { e.entries ≤ length given.now }
    requires faces_taken { FacesTaken w.now given.now f.old s e }
    ensures { Updated w.now s (update_with level s e w.now given.now) f.old f.new result }
{
    pick_given(w, given, f, s.rows, e.diagonals, s.diagonal);
    settle(f, s.rows, s.diagonal, s.inverse, level)
}
