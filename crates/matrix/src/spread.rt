// matrix.rs: a vector spread over the faces of a matrix. The product adds what a face gives, the residual takes it away: one set of
// functions over the operation, of which the compiler makes a copy for each. `VectorsOk` and `row < s.rows` stand in each contract: they tie the words, the
// floats' length and a loop's row to s, and no one value has all of these.
ghost use Rattle.std.specs.Prelude.{◌≡◌, ◌+◌, ◌<◌, ◌≤◌, length, Float};
ghost use Rattle.float.specs.Float.{add64, sub64};
ghost use Rattle.store.specs.Region.{at};
ghost use Rattle.matrix.specs.Turns.{faces_of, start_of, VectorsOk, Faced, Rowed, Spread};

use crate::matrix::SymmetricMatrix;

// How a face's product is combined with the value that it goes into. It names an operation; no value of it is made.
pub trait Combine {
    // Whether the two faces of a row that has two are taken without a loop.
    const TWO: bool;

    ghost op: { Float → Float → Float };

    fn combine(value: f64, product: f64) -> f64
        ensures { result ≡ op value product };
}

// It is added, as in the product. Most rows of a grid in the plane have two faces, which are taken at once.
pub struct Plus;

impl Combine for Plus {
    const TWO: bool = true;

    ghost op = { add64 };

    fn combine(value: f64, product: f64) -> f64 {
        value + product
    }
}

// It is taken away, as in the residual, whose loop is left to the compiler.
pub struct Minus;

impl Combine for Minus {
    const TWO: bool = false;

    ghost op = { sub64 };

    fn combine(value: f64, product: f64) -> f64 {
        value - product
    }
}

// One face of a row whose own x is `own`: its neighbour's value in place, the owner's returned.
fn spread_face<C: Combine>(
    w: &[u32],
    f: &mut [f64],
    s: SymmetricMatrix,
    x: usize,
    out: usize,
    face: usize,
    own: f64,
    owner: f64,
) -> f64
    requires vectors_ok { VectorsOk w.now (length f.old) s x out }
    requires face_bound { face < faces_of w.now s }
    ensures { Faced C.op w.now s x out face (face + 1) own f.old owner f.new result }
{
    let neighbor = store::index_at(w, s.neighbors, face, s.rows);
    let a = f[s.coefficients + face];
    let sum = C::combine(owner, a * f[x + neighbor]);
    f[out + neighbor] = C::combine(f[out + neighbor], a * own);
    sum
}

// The two faces from lo of a row that has two.
fn spread_two<C: Combine>(
    w: &[u32],
    f: &mut [f64],
    s: SymmetricMatrix,
    x: usize,
    out: usize,
    lo: usize,
    own: f64,
    start: f64,
) -> f64
    requires vectors_ok { VectorsOk w.now (length f.old) s x out }
    requires lo_bound { lo + 2 ≤ faces_of w.now s }
    ensures { Faced C.op w.now s x out lo (lo + 2) own f.old start f.new result }
{
    let owner = spread_face::<C>(w, f, s, x, out, lo, own, start);
    spread_face::<C>(w, f, s, x, out, lo + 1, own, owner)
}

// The faces from lo to hi of a row.
fn spread_faces<C: Combine>(
    w: &[u32],
    f: &mut [f64],
    s: SymmetricMatrix,
    x: usize,
    out: usize,
    row: usize,
    lo: usize,
    hi: usize,
) -> f64
    requires vectors_ok { VectorsOk w.now (length f.old) s x out }
    requires row_lt_rows { row < s.rows }
    requires hi_bound { hi ≤ faces_of w.now s }
    ensures { Faced C.op w.now s x out lo hi (at f.old (x + row)) f.old (at f.old (out + row)) f.new result }
{
    let own = f[x + row];
    let mut owner = f[out + row];
    if C::TWO && lo < hi && hi - lo == 2 {
        return spread_two::<C>(w, f, s, x, out, lo, own, owner);
    }
    for face in lo..hi {
        owner = spread_face::<C>(w, f, s, x, out, face, own, owner);
    }
    owner
}

// The faces of one row, which start at lo. The answer is where they end.
fn spread_row<C: Combine>(
    w: &[u32],
    f: &mut [f64],
    s: SymmetricMatrix,
    x: usize,
    out: usize,
    row: usize,
    lo: usize,
) -> usize
    requires vectors_ok { VectorsOk w.now (length f.old) s x out }
    requires row_lt_rows { row < s.rows }
    requires lo_value { lo ≡ start_of w.now s row }
    ensures { Rowed C.op w.now s x out row f.old f.new result }
{
    let hi = store::wide(w[s.offsets + row + 1]);
    let owner = spread_faces::<C>(w, f, s, x, out, row, lo, hi);
    f[out + row] = owner;
    hi
}

// The faces of every row. Where those of a row end, those of the next start: it is read once.
pub fn spread_rows<C: Combine>(w: &[u32], f: &mut [f64], s: SymmetricMatrix, x: usize, out: usize)
    requires { VectorsOk w.now (length f.old) s x out }
    ensures { Spread C.op w.now s x out f.old f.new }
{
    let mut lo = store::wide(w[s.offsets]);
    for row in 0..s.rows {
        lo = spread_row::<C>(w, f, s, x, out, row, lo);
    }
}
