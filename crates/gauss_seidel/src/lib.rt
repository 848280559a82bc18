// smoother.rs: one Gauss-Seidel sweep over regions of the store. `VectorsOk` stands in each contract of a sweep and its rows: that x and work lie in the
// floats is a fact of the floats' length, the words and three places, of which no one value has all.
#![tactic(auto)]

ghost use Rattle.std.specs.Prelude.{◌≡◌, ◌+◌, ◌/◌, ◌<◌, ◌≤◌, leb, length};
ghost use Rattle.float.specs.Float.{sub64};
ghost use Rattle.store.specs.Region.{at, part};
ghost use Rattle.store.specs.Held.{Held};
ghost use Rattle.matrix.specs.Kernel.{kernel_at};
ghost use Rattle.matrix.specs.Turns.{faces_of, VectorsOk};
ghost use Rattle.gauss_seidel.specs.Sweep.{gauss_seidel_of};
ghost use Rattle.gauss_seidel.specs.Contract.{GaussSeidelOk, Both};
ghost use Rattle.gauss_seidel.specs.Turns.{Stored, Watched, Handed, cast_turn, forward_turn, backward_turn, Gathered, Fresh};

use matrix::SymmetricMatrix;

// What a sweep carries over to the next row in a register: a sweep that is near holds what stands at `watched`. A flag beside the float and no Option: the
// flag is one for all rows (`few_faces`) where the float changes with each face, and `Held`, `Put` and `Watched` name flag, place and float.
#[derive(Clone, Copy)]
pub struct Carried {
    pub near: bool,
    pub watched: usize,
    pub held: f64,
}

// start less a * v[neighbor] of each face from lo to hi. A neighbour is a row, so that the test never leaves the loop; it keeps the
// compiler from taking two faces at a time. How many faces a row has is hard to foretell on coarse levels, and whether their
// number is odd would be one more thing to guess.
fn take_faces(
    w: &[u32],
    f: &[f64],
    s: SymmetricMatrix,
    v: usize,
    lo: usize,
    hi: usize,
    start: f64,
) -> f64
    requires vectors_ok { VectorsOk w.now (length f.now) s v v }
    requires hi_bound { hi ≤ faces_of w.now s }
    ensures { Gathered sub64 w.now s v lo hi start f.now result }
{
    let mut value = start;
    for face in lo..hi {
        let neighbor = store::index_at(w, s.neighbors, face, s.rows);
        if neighbor >= s.rows {
            return value;
        }
        value = value - f[s.coefficients + face] * f[v + neighbor];
    }
    value
}

// Whether a row has at most two faces on the average, as on a grid in the plane whose rows go line by line. The next row is
// then often a neighbour: what a row leaves for it is worth holding in a register, so that it does not wait for the store.
// With more faces, rows wait for little, and a wrong guess at which face it is costs more.
pub fn few_faces(w: &[u32], s: SymmetricMatrix) -> bool
    requires { s.offsets + s.rows < length w.now }
    ensures { result ≡ leb (faces_of w.now s / 2) s.rows }
{
    store::wide(w[s.offsets + s.rows]) / 2 <= s.rows
}

// v[neighbor] -= a * value, for each face from lo to hi. The answer is what a caller that is near then holds.
pub fn cast_faces(
    w: &[u32],
    f: &mut [f64],
    s: SymmetricMatrix,
    v: usize,
    lo: usize,
    hi: usize,
    value: f64,
    next: Carried,
) -> f64
    requires vectors_ok { VectorsOk w.now (length f.old) s v v }
    requires hi_bound { hi ≤ faces_of w.now s }
    requires held { Held next.near next.watched f.old next.held }
    ensures { Watched (cast_turn w.now s v value) lo hi f.old f.new next.near next.watched result }
{
    let mut held = next.held;
    for face in lo..hi {
        let neighbor = store::index_at(w, s.neighbors, face, s.rows);
        let left = f[v + neighbor] - f[s.coefficients + face] * value;
        held = store::put(f, v + neighbor, left, next.near, next.watched, held);
    }
    held
}

// The new x of a row, of which `start` stands in work.
fn fresh(
    w: &[u32],
    f: &[f64],
    s: SymmetricMatrix,
    x: usize,
    work: usize,
    row: usize,
    start: f64,
) -> f64
    requires vectors_ok { VectorsOk w.now (length f.now) s x work }
    requires row_lt_rows { row < s.rows }
    requires start_value { start ≡ at f.now (work + row) }
    ensures { Fresh w.now s x work row f.now result }
{
    let lo = store::wide(w[s.offsets + row]);
    let hi = store::wide(w[s.offsets + row + 1]);
    let value = take_faces(w, f, s, x, lo, hi, start);
    value * f[s.inverse + row]
}

// A row of the forward sweep. The answer is what stands in work for the next row. `near` comes alone: what is held is read here, once the place is known.
fn forward_row(
    w: &[u32],
    f: &mut [f64],
    s: SymmetricMatrix,
    x: usize,
    work: usize,
    near: bool,
    row: usize,
    start: f64,
) -> f64
    requires vectors_ok { VectorsOk w.now (length f.old) s x work }
    requires row_lt_rows { row < s.rows }
    requires start_value { start ≡ at f.old (work + row) }
    ensures { Handed (forward_turn w.now s x work) row f.old f.new (work + (row + 1)) result }
{
    let value = fresh(w, f, s, x, work, row, start);
    let lo = store::wide(w[s.offsets + row]);
    let hi = store::wide(w[s.offsets + row + 1]);
    let next = work + (row + 1);
    let held = store::float_at(f, next);
    let carried = Carried {
        near,
        watched: next,
        held,
    };
    let cast = cast_faces(w, f, s, work, lo, hi, value, carried);
    let stays = store::put(f, x + row, value, near, next, cast);
    store::held_at(f, next, near, stays)
}

// The rows upward.
fn forward(w: &[u32], f: &mut [f64], s: SymmetricMatrix, x: usize, work: usize)
    requires { VectorsOk w.now (length f.old) s x work }
    ensures { Stored (forward_turn w.now s x work) 0 s.rows f.old f.new }
{
    let near = few_faces(w, s);
    let mut start = store::float_at(f, work);
    for row in 0..s.rows {
        start = forward_row(w, f, s, x, work, near, row, start);
    }
}

// The rows downward, with no casting. No `rev`: `backward_turn` speaks of the count of the rows done.
fn backward(w: &[u32], f: &mut [f64], s: SymmetricMatrix, x: usize, work: usize)
    requires { VectorsOk w.now (length f.old) s x work }
    ensures { Stored (backward_turn w.now s x work) 0 s.rows f.old f.new }
{
    for i in 0..s.rows {
        let row = s.rows - 1 - i;
        let value = fresh(w, f, s, x, work, row, f[work + row]);
        f[x + row] = value;
    }
}

// One sweep over the rows, and one back where it is symmetric.
pub fn gauss_seidel(
    w: &[u32],
    f: &mut [f64],
    s: SymmetricMatrix,
    rhs: usize,
    x: usize,
    work: usize,
    symmetric: bool,
)
    requires { GaussSeidelOk w.now (length f.old) s rhs x work }
    ensures { Both s.rows x work (gauss_seidel_of (kernel_at s w.now f.old) symmetric (part rhs s.rows f.old) (part x s.rows f.old)) f.old f.new }
{
    store::copy(f, s.rows, rhs, work);
    forward(w, f, s, x, work);
    if symmetric {
        backward(w, f, s, x, work);
    }
}
