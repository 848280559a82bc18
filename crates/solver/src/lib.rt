// The types of a solve and what the calls answer: controls, report, and the `Result`s of mod.rs.
#![tactic(auto)]

pub mod answers;
pub mod solver;
pub mod statistics;

pub use answers::{BuildRun, SolveRun};
pub use solver::{
    LinearSolveReport, LinearSolverOptions, LinearSolverStatus, relative, report, threshold,
};
pub use statistics::MultigridLevelStatistics;
