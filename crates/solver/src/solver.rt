// Types of a solve (solver.rs): its controls, and the report that it returns; and how mod.rs makes it.
ghost use Rattle.std.specs.Prelude.{◌≡◌};
ghost use Rattle.solver.specs.Solver.{default_solver, converged_of, threshold_of, relative_of, report_of};

// When a solve stops.
#[derive(Clone, Copy)]
pub struct LinearSolverOptions {
    pub absolute_tolerance: f64,
    pub relative_tolerance: f64,
    pub max_iterations: u64,
}

impl Default for LinearSolverOptions {
    ghost is_default = { λ o. o ≡ default_solver };

    fn default() -> LinearSolverOptions {
        LinearSolverOptions {
            absolute_tolerance: 1.0e-10,
            relative_tolerance: 1.0e-8,
            max_iterations: 1_000,
        }
    }
}

// Whether the residual became small enough, or the iterations were used up.
#[derive(Clone, Copy, PartialEq, Eq, Debug)]
pub enum LinearSolverStatus {
    Converged,
    MaxIterations,
}

// What an accepted solve reports.
#[derive(Clone, Copy)]
pub struct LinearSolveReport {
    pub status: LinearSolverStatus,
    pub iterations: u64,
    pub initial_residual: f64,
    pub final_residual: f64,
    pub relative_residual: f64,
}

impl LinearSolveReport {
    // Whether the solve came as far as it was asked to.
    pub fn converged(self) -> bool
        ensures { result ≡ converged_of self.status }
    {
        matches!(self.status, LinearSolverStatus::Converged)
    }
}

// The norm at or below which a solve has converged.
pub fn threshold(absolute: f64, relative: f64, initial: f64) -> f64
    ensures { result ≡ threshold_of absolute relative initial }
{
    float::max_num(absolute, relative * initial)
}

// The last norm by the first; zero where the first is not above zero.
pub fn relative(initial: f64, last: f64) -> f64
    ensures { result ≡ relative_of initial last }
{
    if initial > 0.0 { last / initial } else { 0.0 }
}

// The report of a solve (`report` of mod.rs).
pub fn report(
    status: LinearSolverStatus,
    iterations: u64,
    initial: f64,
    last: f64,
) -> LinearSolveReport
    ensures { result ≡ report_of status iterations initial last }
{
    LinearSolveReport {
        status,
        iterations,
        initial_residual: initial,
        final_residual: last,
        relative_residual: relative(initial, last),
    }
}
