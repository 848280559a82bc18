// The controls of the solver, the handle that a build answers with, and how often a level is smoothed.
#![tactic(auto)]

pub mod options;
pub mod sweep_counts;

pub use options::{
    Handle, MultigridCoarseSolver, MultigridOptions, MultigridResidualNorm, MultigridSmoother,
    check_controls, is_tolerable, needs_dic,
};
pub use sweep_counts::{post_sweeps_at, pre_sweeps_at};
