// smoother.rs: one DIC sweep over regions of the store. `VectorsOk` and `row < s.rows` stand in each contract of a substitution and its rows: where dic and
// correction lie is a fact of the words and the floats' length too, which no value but the lent stores has.
ghost use Rattle.std.specs.Prelude.{◌≡◌, ◌+◌, ◌<◌, ◌≤◌, length};
ghost use Rattle.float.specs.Float.{add64, zero64};
ghost use Rattle.store.specs.Region.{at, part};
ghost use Rattle.store.specs.Held.{Held};
ghost use Rattle.matrix.specs.Kernel.{kernel_at};
ghost use Rattle.matrix.specs.Turns.{faces_of, VectorsOk};
ghost use Rattle.gauss_seidel.specs.Sweep.{dic_sweep_of};
ghost use Rattle.gauss_seidel.specs.Contract.{SmoothOk, Both};
ghost use Rattle.gauss_seidel.specs.Turns.{Stored, Handed, lower_turn, upper_turn, Gathered, Scaled, Upper};

use gauss_seidel::Carried;
use matrix::{SymmetricMatrix, residual};

// The sum of a * v[neighbor] over the faces from lo to hi; a caller that is near holds what stands at `watched`.
fn add_faces(
    w: &[u32],
    f: &[f64],
    s: SymmetricMatrix,
    v: usize,
    lo: usize,
    hi: usize,
    last: Carried,
) -> f64
    requires vectors_ok { VectorsOk w.now (length f.now) s v v }
    requires hi_bound { hi ≤ faces_of w.now s }
    requires held { Held last.near last.watched f.now last.held }
    ensures { Gathered add64 w.now s v lo hi zero64 f.now result }
{
    let mut value = 0.0;
    for face in lo..hi {
        let neighbor = store::index_at(w, s.neighbors, face, s.rows);
        let other = store::float_near(f, v + neighbor, last.near, last.watched, last.held);
        value += f[s.coefficients + face] * other;
    }
    value
}

// A row's correction, which is `start`, times its DIC reciprocal, in place.
fn scale(f: &mut [f64], dic: usize, correction: usize, row: usize, start: f64) -> f64
    requires row_in_bounds { dic + row < length f.old }
    requires row_in_bounds_2 { correction + row < length f.old }
    requires start_value { start ≡ at f.old (correction + row) }
    ensures { Scaled dic correction row f.old f.new result }
{
    let value = start * f[dic + row];
    f[correction + row] = value;
    value
}

// A row of the forward substitution. The answer is the correction of the next row so far. `near` comes alone, as in `pivot_row`.
fn lower_row(
    w: &[u32],
    f: &mut [f64],
    s: SymmetricMatrix,
    dic: usize,
    correction: usize,
    near: bool,
    row: usize,
    start: f64,
) -> f64
    requires vectors_ok { VectorsOk w.now (length f.old) s dic correction }
    requires row_lt_rows { row < s.rows }
    requires start_value { start ≡ at f.old (correction + row) }
    ensures { Handed (lower_turn w.now s dic correction) row f.old f.new (correction + (row + 1)) result }
{
    let lo = store::wide(w[s.offsets + row]);
    let hi = store::wide(w[s.offsets + row + 1]);
    let value = scale(f, dic, correction, row, start);
    let next = correction + (row + 1);
    let held = store::float_at(f, next);
    let carried = Carried {
        near,
        watched: next,
        held,
    };
    let stays = gauss_seidel::cast_faces(w, f, s, correction, lo, hi, value, carried);
    store::held_at(f, next, near, stays)
}

// The forward substitution.
fn lower(w: &[u32], f: &mut [f64], s: SymmetricMatrix, dic: usize, correction: usize)
    requires { VectorsOk w.now (length f.old) s dic correction }
    ensures { Stored (lower_turn w.now s dic correction) 0 s.rows f.old f.new }
{
    let near = gauss_seidel::few_faces(w, s);
    let mut start = store::float_at(f, correction);
    for row in 0..s.rows {
        start = lower_row(w, f, s, dic, correction, near, row, start);
    }
}

// The new correction of a row on the way back; a caller that is near holds what stands at `watched`.
fn upper_value(
    w: &[u32],
    f: &[f64],
    s: SymmetricMatrix,
    dic: usize,
    correction: usize,
    row: usize,
    last: Carried,
) -> f64
    requires vectors_ok { VectorsOk w.now (length f.now) s dic correction }
    requires row_lt_rows { row < s.rows }
    requires held { Held last.near last.watched f.now last.held }
    ensures { Upper w.now s dic correction row f.now result }
{
    let lo = store::wide(w[s.offsets + row]);
    let hi = store::wide(w[s.offsets + row + 1]);
    let upper = add_faces(w, f, s, correction, lo, hi, last);
    f[correction + row] - f[dic + row] * upper
}

// The backward substitution, row by row added to x.
// No `rev`: `upper_turn` speaks of the count of the rows done, and the first row's `watched` is one past the last.
fn upper(w: &[u32], f: &mut [f64], s: SymmetricMatrix, dic: usize, x: usize, correction: usize)
    requires vectors_ok { VectorsOk w.now (length f.old) s dic correction }
    requires rows_in_bounds { x + s.rows ≤ length f.old }
    ensures { Stored (upper_turn w.now s dic correction x) 0 s.rows f.old f.new }
{
    let near = gauss_seidel::few_faces(w, s);
    let mut held = store::float_at(f, correction + s.rows);
    for i in 0..s.rows {
        let row = s.rows - 1 - i;
        let last = Carried {
            near,
            watched: correction + (s.rows - i),
            held,
        };
        let value = upper_value(w, f, s, dic, correction, row, last);
        let sum = f[x + row] + value;
        f[correction + row] = value;
        held = store::put(f, x + row, sum, near, correction + row, value);
    }
}

// One DIC sweep: the residual, both substitutions, and x corrected.
pub fn dic_sweep(
    w: &[u32],
    f: &mut [f64],
    s: SymmetricMatrix,
    dic: usize,
    rhs: usize,
    x: usize,
    work: usize,
    correction: usize,
)
    requires { SmoothOk w.now (length f.old) s dic rhs x work correction }
    ensures { Both s.rows x correction (dic_sweep_of (kernel_at s w.now f.old) (part dic s.rows f.old) (part rhs s.rows f.old) (part x s.rows f.old)) f.old f.new }
{
    residual::residual(w, f, s, x, rhs, correction);
    lower(w, f, s, dic, correction);
    upper(w, f, s, dic, x, correction);
}
