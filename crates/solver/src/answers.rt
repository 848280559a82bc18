// What the calls answer, the `Result`s of mod.rs: the handle, nothing more, the report or the number of levels; or the refusal.
use crate::solver::LinearSolveReport;
use options::Handle;
use refusal::Refusal;

// Both hold arrays for the 128 levels that there can be, since the solver has no heap; behind the levels that there are stand zeros.

// What a build gives its call: its answer, and the rows of each level, zeros behind them and where it is refused.
#[derive(Clone, Copy)]
pub struct BuildRun {
    pub answer: Result<Handle, Refusal>,
    pub cells: [u64; 128],
}

// What a solve gives its call: its answer, on how many levels it counted (none where it is refused), and what it counted there, four
// numbers to a level.
#[derive(Clone, Copy)]
pub struct SolveRun {
    pub answer: Result<LinearSolveReport, Refusal>,
    pub levels: u64,
    pub counts: [u64; 512],
}
