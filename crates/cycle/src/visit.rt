// cycle.rs: what a cycle does on a level before and after the coarser ones. Behind a level's vectors come those of the next level.
ghost use Rattle.std.specs.Prelude.{◌≡◌, length};
ghost use Rattle.cycle.specs.Visit.{residual_place, smoothed_at, scaled_at, corrected_at, raised_at};
ghost use Rattle.cycle.specs.Visit.{aggregates_of, InnerOk, Moved, Resided, Restricted, Downed};

use correction::Aggregates;
use matrix::SymmetricMatrix;
use options::MultigridSmoother;
use refusal::Refusal;
use smoother::LevelScratch;

// `InnerOk`, which the functions of a visit ask, tells where a level lies in the two stores of the call, and what words stand
// there. `Inner` holds neither store, so that no invariant of it could say so.

// A level that is not the last: its matrix, its DIC reciprocals, the aggregate of each row, its vectors, and those of the next level with
// its rows.
#[derive(Clone, Copy)]
pub struct Inner {
    pub matrix: SymmetricMatrix,
    pub dic: usize,
    pub links: usize,
    pub vectors: LevelScratch,
    pub below: LevelScratch,
    pub next: usize,
}

impl Inner {
    // The map of its rows to those of the next level.
    fn aggregates(self) -> Aggregates
        ensures { result ≡ aggregates_of self }
    {
        Aggregates {
            rows: self.matrix.rows,
            count: self.next,
            map: self.links,
        }
    }
}

// So many sweeps on a level.
fn smooth(
    w: &[u32],
    f: &mut [f64],
    g: Inner,
    kind: MultigridSmoother,
    sweeps: u64,
) -> Result<(), Refusal>
    requires { InnerOk w.now (length f.old) g }
    ensures { Moved g.vectors.x g.matrix.rows (smoothed_at w.now f.old g kind sweeps) f.old f.new result }
{
    smoother::smooth(w, f, g.matrix, g.dic, kind, g.vectors, sweeps)
}

// Where the residual stands.
fn residual_at(v: LevelScratch, sweeps: u64) -> usize
    ensures { result ≡ residual_place v sweeps }
{
    if sweeps == 0 { v.rhs } else { v.work }
}

// Every recursive correction starts at zero. With no sweeps before, the residual is exactly the right-hand side: the matrix is not
// multiplied by a zero vector.
fn residual(w: &[u32], f: &mut [f64], g: Inner, sweeps: u64)
    requires { InnerOk w.now (length f.old) g }
    ensures { Resided w.now f.old f.new g sweeps }
{
    if sweeps == 0 {
        return;
    }
    let v = g.vectors;
    matrix::apply(w, f, g.matrix, v.x, v.product);
    correction::subtract(f, g.matrix.rows, v.rhs, v.product, v.work);
}

// The residual, added up over the aggregates to the next level's right-hand side; the next level's x starts at zero.
fn restrict(w: &[u32], f: &mut [f64], g: Inner, sweeps: u64)
    requires { InnerOk w.now (length f.old) g }
    ensures { Restricted w.now f.old f.new g sweeps }
{
    residual(w, f, g, sweeps);
    let from = residual_at(g.vectors, sweeps);
    let map = g.aggregates();
    correction::restrict(w, f, map, from, g.below.rhs);
    store::fill(f, g.below.x, g.next, 0.0);
}

// The way down: sweeps, and the next level's right-hand side.
pub fn down(
    w: &[u32],
    f: &mut [f64],
    g: Inner,
    kind: MultigridSmoother,
    sweeps: u64,
) -> Result<(), Refusal>
    requires { InnerOk w.now (length f.old) g }
    ensures { Downed kind w.now f.old f.new g sweeps result }
{
    smooth(w, f, g, kind, sweeps)?;
    restrict(w, f, g, sweeps);
    Ok(())
}

// The correction scaled, and a Jacobi step on the residual that it leaves.
fn correct_scaled(w: &[u32], f: &mut [f64], g: Inner, sweeps: u64) -> Result<(), Refusal>
    requires { InnerOk w.now (length f.old) g }
    ensures { Moved g.vectors.x g.matrix.rows (scaled_at w.now f.old g sweeps) f.old f.new result }
{
    let n = g.matrix.rows;
    let v = g.vectors;
    let e = v.correction;
    let from = residual_at(v, sweeps);
    matrix::apply(w, f, g.matrix, e, v.product);
    let factor = correction::correction_factor(f, n, e, from, v.product)?;
    correction::add_scaled(f, n, factor, e, from, v.product, g.matrix.inverse, v.x);
    Ok(())
}

// The next level's x, added to x: scaled, it comes up as the correction first; as it is, straight through the aggregate numbers, and no
// word but those of x is written.
fn correct(w: &[u32], f: &mut [f64], g: Inner, scale: bool, sweeps: u64) -> Result<(), Refusal>
    requires { InnerOk w.now (length f.old) g }
    ensures { Moved g.vectors.x g.matrix.rows (corrected_at w.now f.old g scale sweeps) f.old f.new result }
{
    let map = g.aggregates();
    if scale {
        correction::prolong(w, f, map, g.below.x, g.vectors.correction);
        return correct_scaled(w, f, g, sweeps);
    }
    correction::add_prolonged(w, f, map, g.below.x, g.vectors.x);
    Ok(())
}

// The way up: the next level's x is added, and sweeps follow.
pub fn up(
    w: &[u32],
    f: &mut [f64],
    g: Inner,
    kind: MultigridSmoother,
    scale: bool,
    pre: u64,
    post: u64,
) -> Result<(), Refusal>
    requires { InnerOk w.now (length f.old) g }
    ensures { Moved g.vectors.x g.matrix.rows (raised_at w.now f.old g kind scale pre post) f.old f.new result }
{
    correct(w, f, g, scale, pre)?;
    smooth(w, f, g, kind, post)
}
