// mod.rs: the iterations of a solve.
ghost use Rattle.std.specs.Prelude.{length};
ghost use Rattle.iterations.specs.Steps.{Ready};
ghost use Rattle.iterations.specs.Contract.{iterate_at, Ran};

use crate::stepping::{Regions, iteration};
use options::Handle;
use refusal::Refusal;
use solver::{LinearSolveReport, LinearSolverStatus};

// When iterations end: where the norm of the residual is at or below the threshold, or so many are done.
#[derive(Clone, Copy)]
pub struct Limits {
    pub threshold: f64,
    pub iterations: u64,
}

// Iterations up to those limits; the norm at the start was `initial`, and `factor` divides each norm.
pub fn iterate(
    h: Handle,
    w: &[u32],
    f: &mut [f64],
    t: &mut [u64; 512],
    g: Regions,
    factor: f64,
    initial: f64,
    limits: Limits,
) -> Result<LinearSolveReport, Refusal>
    requires { Ready h w.now (length f.old) g }
    ensures { Ran g (iterate_at h w.now f.old t.old g factor initial limits.threshold limits.iterations) f.old f.new t.new result }
{
    let mut used = 0;
    let mut last = initial;
    for done in 0..limits.iterations {
        let after = iteration::step(h, w, f, t, g, factor, used)?;
        used = after.used;
        last = after.last;
        if last <= limits.threshold {
            return Ok(solver::report(LinearSolverStatus::Converged, done + 1, initial, last));
        }
    }
    Ok(solver::report(
        LinearSolverStatus::MaxIterations,
        limits.iterations,
        initial,
        last,
    ))
}
