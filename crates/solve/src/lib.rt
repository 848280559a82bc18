// mod.rs: the solve in lent stores: its input, its iterations on copies, and what it leaves.
#![tactic(auto)]

ghost use Rattle.std.specs.Prelude.{◌≡◌, length};
ghost use Rattle.solve.specs.Solved.{solved_at};
ghost use Rattle.solve.specs.Contract.{uncounted_run, refused_run, empty_run, SolveDone};
ghost use Rattle.iterations.specs.Contract.{Ran};
ghost use Rattle.solve.specs.Steps.{SolveOk, AttemptOk, BeginOk, begun_at, attempt_at};

use iterations::{Limits, Regions, iteration, places};
use options::Handle;
use refusal::Refusal;
use residual_norm::{measure, normalization};
use solver::{LinearSolveReport, LinearSolverOptions, LinearSolverStatus, SolveRun};

pub mod copies;
pub mod input;

// Questions 22 and 23 on the right-hand side and the start in the store, and the iterations unless the start is good enough. Kept out of
// line, as the copies are and `advance` of `iterations`: with all of a solve in one frame each function that hands on the counters of the
// levels has a copy of their 4 KB there, and a solve takes twice the stack that docs/FOR-THE-TANK-MAKER.md states.
#[inline(never)]
fn attempt(
    h: Handle,
    w: &[u32],
    f: &mut [f64],
    t: &mut [u64; 512],
    g: Regions,
    s: LinearSolverOptions,
) -> Result<LinearSolveReport, Refusal>
    requires { AttemptOk h w.now (length f.old) g t.old }
    ensures { Ran g (attempt_at h w.now f.old g s) f.old f.new t.new result }
{
    let options = h.options;
    let norm = options.residual_norm;
    iteration::renew(w, f, g);
    let factor = normalization::normalization(
        f, g.rows, g.solution, g.rhs, g.product, g.sums, norm,
    );
    if !float::is_finite(factor) {
        return Err(refusal::BAD_NORMALIZATION);
    }
    let initial = measure::measure(f, g.rows, g.residual, norm, factor).ok_or(
        refusal::BAD_RESIDUAL,
    )?;
    let threshold = solver::threshold(s.absolute_tolerance, s.relative_tolerance, initial);
    if initial <= threshold {
        return Ok(solver::report(LinearSolverStatus::Converged, 0, initial, initial));
    }
    let limits = Limits {
        threshold,
        iterations: s.max_iterations,
    };
    iterations::iterate(h, w, f, t, g, factor, initial, limits)
}

// What a solve that counted on no level gives its call.
fn uncounted(answer: Result<LinearSolveReport, Refusal>) -> SolveRun
    ensures { result ≡ uncounted_run answer }
{
    SolveRun {
        answer,
        levels: 0,
        counts: [0u64; 512],
    }
}

// What a solve that is refused gives its call.
pub fn refused(q: Refusal) -> SolveRun
    ensures { result ≡ refused_run q }
{
    uncounted(Err(q))
}

// What a solve of no levels gives its call. The residuals are said and not computed: an empty sum is minus zero, and the mean of no
// numbers is a NaN.
fn empty() -> SolveRun
    ensures { result ≡ empty_run }
{
    uncounted(Ok(LinearSolveReport {
        status: LinearSolverStatus::Converged,
        iterations: 0,
        initial_residual: 0.0,
        final_residual: 0.0,
        relative_residual: 0.0,
    }))
}

// Here and in `solve` rhs and x are two slices: two arrays that C lends, the one to read, the other to write.

// The solve of an input that has passed, on copies and from counters at zero: the solution is written where it is accepted, and only there.
fn begin(
    h: Handle,
    w: &[u32],
    f: &mut [f64],
    rhs: &[f64],
    x: &mut [f64],
    s: LinearSolverOptions,
) -> SolveRun
    requires { BeginOk h w.now (length f.old) (length rhs.now) (length x.old) }
    ensures { SolveDone h w.now f.old f.new x.old x.new (begun_at h w.now f.old rhs.now x.old s) result }
{
    let g = places::regions(h, w);
    let mut t = [0u64; 512];
    copies::enter(f, rhs, x, g.rhs, g.solution);
    match attempt(h, w, f, &mut t, g, s) {
        Ok(report) => {
            copies::copy_out(x, f, g.solution);
            SolveRun {
                answer: Ok(report),
                levels: h.levels,
                counts: t,
            }
        }
        Err(q) => refused(q),
    }
}

// The system of a hierarchy solved from x on, for stores that have passed the index check; refused, the solution is as it was.
pub fn solve(
    h: Handle,
    w: &[u32],
    f: &mut [f64],
    rhs: &[f64],
    x: &mut [f64],
    s: LinearSolverOptions,
) -> SolveRun
    requires { SolveOk h w.now (length f.old) }
    ensures { SolveDone h w.now f.old f.new x.old x.new (solved_at h w.now f.old rhs.now x.old s) result }
{
    if let Err(q) = input::ask_input(h.rows as usize, s, rhs, x) {
        return refused(q);
    }
    if h.levels == 0 {
        return empty();
    }
    begin(h, w, f, rhs, x, s)
}
