// One iteration: a cycle on the residual, the solution moved by its correction, and the true residual.
ghost use Rattle.std.specs.Prelude.{length};
ghost use Rattle.iterations.specs.Steps.{VectorsOk, Renewed, MoveOk, Moved, StepOk, AdvanceDone, StepDone, move_at};

use crate::stepping::{Regions, Stepped};
use acceleration::{GcrWorkspace, PairPlace};
use options::Handle;
use refusal::Refusal;
use residual_norm::measure;

// The product and the residual of the solution.
#[inline(never)]
pub fn renew(w: &[u32], f: &mut [f64], g: Regions)
    requires { VectorsOk w.now (length f.old) g }
    ensures { Renewed w.now f.old f.new g }
{
    matrix::apply(w, f, g.matrix, g.solution, g.product);
    correction::subtract(f, g.rows, g.rhs, g.product, g.residual);
}

// `used` is how many pairs of the memory in the store are filled; the solver has no heap, so that they are no vector that knows its length.

// The solution moved by the correction: as it is where no directions are stored, else by GCR with the correction's image.
fn move_solution(
    w: &[u32],
    f: &mut [f64],
    g: Regions,
    krylov: usize,
    used: usize,
) -> Result<usize, Refusal>
    requires { MoveOk w.now (length f.old) g krylov used }
    ensures { Moved krylov g (move_at w.now f.old g krylov used) f.old f.new result }
{
    if krylov == 0 {
        correction::add_plain(f, g.rows, g.correction, g.solution);
        return Ok(used);
    }
    matrix::apply(w, f, g.matrix, g.correction, g.product);
    let workspace = GcrWorkspace {
        rows: g.rows,
        krylov,
        directions: g.directions,
        images: g.images,
    };
    let pair = PairPlace {
        direction: g.correction,
        image: g.product,
    };
    acceleration::correct(f, workspace, used, g.solution, g.residual, pair)
}

// After a cycle: the solution moved by its correction, and the norm of the true residual, question 23. Kept out of line, as `renew` is, so that
// its frame does not stand under those of the cycle.
#[inline(never)]
fn advance(
    h: Handle,
    w: &[u32],
    f: &mut [f64],
    g: Regions,
    factor: f64,
    used: usize,
) -> Result<Stepped, Refusal>
    requires { StepOk h w.now (length f.old) g used }
    ensures { AdvanceDone h w.now f.old f.new g used factor result }
{
    let options = h.options;
    let stored = move_solution(w, f, g, options.krylov_dimension as usize, used)?;
    renew(w, f, g);
    let last = measure::measure(f, g.rows, g.residual, options.residual_norm, factor).ok_or(
        refusal::BAD_RESIDUAL,
    )?;
    Ok(Stepped { used: stored, last })
}

// One iteration: the cycle starts from a zero correction.
pub fn step(
    h: Handle,
    w: &[u32],
    f: &mut [f64],
    t: &mut [u64; 512],
    g: Regions,
    factor: f64,
    used: usize,
) -> Result<Stepped, Refusal>
    requires { StepOk h w.now (length f.old) g used }
    ensures { StepDone h w.now f.old f.new t.old t.new g used factor result }
{
    store::fill(f, g.correction, g.rows, 0.0);
    cycle::cycle(w, f, t, h.options, h.levels, 0, 0, 0, g.residual)?;
    advance(h, w, f, g, factor, used)
}
