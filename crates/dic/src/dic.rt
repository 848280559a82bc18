// `update_dic_diagonal` of smoother.rs: the diagonal of the incomplete factor. `DicOk` and `row < s.rows` stand in each contract that reads the matrix: they
// tie the words, the floats' length and d to s, and a struct that carried them would have to borrow the stores.
ghost use Rattle.std.specs.Prelude.{◌≡◌, ◌+◌, ◌<◌, ◌≤◌, length};
ghost use Rattle.store.specs.Region.{part};
ghost use Rattle.store.specs.Held.{Held};
ghost use Rattle.matrix.specs.Kernel.{kernel_at};
ghost use Rattle.matrix.specs.Turns.{faces_of, VectorsOk};
ghost use Rattle.gauss_seidel.specs.Turns.{Watched};
ghost use Rattle.dic.specs.Dic.{is_pivot, pivots_of, dic_of};
ghost use Rattle.dic.specs.Contract.{reciprocals_of, DicOk, Settled, Inverted, ReciprocalsAsked};
ghost use Rattle.dic.specs.Turns.{pivot_turn, PivotRowed};

use gauss_seidel::Carried;
use matrix::SymmetricMatrix;
use refusal::Refusal;

// Finite and above zero.
fn is_pivot(d: f64) -> bool
    ensures { result ≡ is_pivot d }
{
    float::is_finite(d) & !(d <= 0.0)
}

// A row's pivot, taken to the neighbours of its faces from lo to hi. The answer is what a caller that is near then holds.
fn pivot_faces(
    w: &[u32],
    f: &mut [f64],
    s: SymmetricMatrix,
    d: usize,
    lo: usize,
    hi: usize,
    pivot: f64,
    next: Carried,
) -> f64
    requires vectors_ok { VectorsOk w.now (length f.old) s d d }
    requires hi_bound { hi ≤ faces_of w.now s }
    requires held { Held next.near next.watched f.old next.held }
    ensures { Watched (pivot_turn w.now s d pivot) lo hi f.old f.new next.near next.watched result }
{
    let mut held = next.held;
    for face in lo..hi {
        let neighbor = store::index_at(w, s.neighbors, face, s.rows);
        let a = f[s.coefficients + face];
        let left = f[d + neighbor] - a * a / pivot;
        held = store::put(f, d + neighbor, left, next.near, next.watched, held);
    }
    held
}

// The faces of one row. The answer is the pivot of the next. `near` comes alone: what is held is read here, once the place is known.
fn pivot_row(
    w: &[u32],
    f: &mut [f64],
    s: SymmetricMatrix,
    d: usize,
    near: bool,
    row: usize,
    pivot: f64,
) -> f64
    requires dic_ok { DicOk w.now (length f.old) s d }
    requires row_lt_rows { row < s.rows }
    ensures { PivotRowed w.now s d row pivot f.old f.new result }
{
    let lo = store::wide(w[s.offsets + row]);
    let hi = store::wide(w[s.offsets + row + 1]);
    let next = d + (row + 1);
    let held = store::float_at(f, next);
    let carried = Carried {
        near,
        watched: next,
        held,
    };
    let stays = pivot_faces(w, f, s, d, lo, hi, pivot, carried);
    store::held_at(f, next, near, stays)
}

// Question 16 of each row, whose pivot then goes to its neighbours.
fn dic_pivots(
    w: &[u32],
    f: &mut [f64],
    s: SymmetricMatrix,
    d: usize,
    level: u64,
) -> Result<(), Refusal>
    requires dic_ok { DicOk w.now (length f.old) s d }
    requires f_value { part d s.rows f.old ≡ part s.diagonal s.rows f.old }
    ensures { Settled d s.rows (pivots_of level (kernel_at s w.now f.old)) f.old f.new result }
{
    let near = gauss_seidel::few_faces(w, s);
    let mut pivot = store::float_at(f, d);
    for row in 0..s.rows {
        if !is_pivot(pivot) {
            return Err(Refusal {
                number: refusal::BAD_DIC_PIVOT,
                level,
                row: row as u64,
            });
        }
        pivot = pivot_row(w, f, s, d, near, row, pivot);
    }
    Ok(())
}

// The reciprocal of each pivot, in its place, and whether all of them are finite. No branch leaves the loop, so that it divides
// several at once.
fn invert(f: &mut [f64], rows: usize, d: usize) -> bool
    requires { d + rows ≤ length f.old }
    ensures { Inverted rows d f.old f.new result }
{
    let mut ok = true;
    for row in 0..rows {
        let reciprocal = 1.0 / f[d + row];
        ok = ok & float::is_finite(reciprocal);
        f[d + row] = reciprocal;
    }
    ok
}

// Question 17, row by row, of the reciprocals that are written: which row fails first.
fn ask_reciprocals(f: &[f64], rows: usize, d: usize, level: u64) -> Result<(), Refusal>
    requires { d + rows ≤ length f.now }
    ensures { ReciprocalsAsked level rows d f.now result }
{
    for row in 0..rows {
        if !float::is_finite(f[d + row]) {
            return Err(Refusal {
                number: refusal::BAD_DIC_RECIPROCAL,
                level,
                row: row as u64,
            });
        }
    }
    Ok(())
}

// The reciprocals, and question 17. Rows are asked one by one only where one of them fails.
fn dic_reciprocals(f: &mut [f64], rows: usize, d: usize, level: u64) -> Result<(), Refusal>
    requires { d + rows ≤ length f.old }
    ensures { Settled d rows (reciprocals_of level rows (part d rows f.old)) f.old f.new result }
{
    if invert(f, rows, d) {
        return Ok(());
    }
    ask_reciprocals(f, rows, d, level)
}

// The reciprocal pivots of the incomplete factor, at d. Where it refuses, some of them may have been written.
pub fn update_dic_diagonal(
    w: &[u32],
    f: &mut [f64],
    s: SymmetricMatrix,
    d: usize,
    level: u64,
) -> Result<(), Refusal>
    requires { DicOk w.now (length f.old) s d }
    ensures { Settled d s.rows (dic_of level (kernel_at s w.now f.old)) f.old f.new result }
{
    store::copy(f, s.rows, s.diagonal, d);
    dic_pivots(w, f, s, d, level)?;
    dic_reciprocals(f, s.rows, d, level)
}
