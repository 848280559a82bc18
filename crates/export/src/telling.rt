// Answers, and the controls to start from, as structs for C.
ghost use Rattle.std.specs.Prelude.{◌≡◌};
ghost use Rattle.export.specs.Structs.{default_struct, refused_by, built_struct, updated_struct, converged_number, solved_struct, counted_struct};

use crate::structs::{AnswerForC, BuiltForC, CountForC, HierarchyForC, OptionsForC, ReportForC};
use options::Handle;
use refusal::Refusal;
use solver::{LinearSolveReport, LinearSolverStatus};

impl AnswerForC {
    // Nothing is refused.
    pub const DONE: AnswerForC = AnswerForC {
        question: 0,
        level: 0,
        row: 0,
    };
}

// A refusal: its number, and where.
impl From<Refusal> for AnswerForC {
    ghost from_gives = { λ q a. a ≡ refused_by q };

    fn from(q: Refusal) -> AnswerForC {
        AnswerForC {
            question: q.number,
            level: q.level,
            row: q.row,
        }
    }
}

// The defaults of options.rs, but for the coarse solver: its own is refused by question 7.
pub fn default_options() -> OptionsForC
    ensures { result ≡ default_struct }
{
    OptionsForC {
        smoother: 2,
        residual_norm: 1,
        pre_sweeps: 0,
        post_sweeps: 2,
        finest_sweeps: 1,
        sweep_level_multiplier: 1,
        max_sweeps: 4,
        coarsest_cells: 10,
        max_levels: 64,
        merge_levels: 2,
        krylov_dimension: 4,
        coarse_solver: 1,
        coarse_absolute_tolerance: 1e-12,
        coarse_relative_tolerance: 0.01,
        coarse_max_iterations: 500,
        scale_correction: 1,
        max_aggregate_cells: 0,
    }
}

// The answer of a build with those controls, which its handle keeps.
pub fn tell_built(options: OptionsForC, built: Result<Handle, Refusal>) -> BuiltForC
    ensures { result ≡ built_struct options built }
{
    match built {
        Ok(handle) => BuiltForC {
            answer: AnswerForC::DONE,
            hierarchy: HierarchyForC {
                options,
                levels: handle.levels,
                rows: handle.rows,
                entries: handle.entries,
            },
        },
        Err(refusal) => BuiltForC {
            answer: AnswerForC::from(refusal),
            hierarchy: HierarchyForC {
                options,
                levels: 0,
                rows: 0,
                entries: 0,
            },
        },
    }
}

// The answer of an update.
pub fn tell_updated(updated: Result<(), Refusal>) -> AnswerForC
    ensures { result ≡ updated_struct updated }
{
    match updated {
        Ok(()) => AnswerForC::DONE,
        Err(refusal) => AnswerForC::from(refusal),
    }
}

fn converged_number(status: LinearSolverStatus) -> u64
    ensures { result ≡ converged_number status }
{
    match status {
        LinearSolverStatus::Converged => 1,
        LinearSolverStatus::MaxIterations => 0,
    }
}

// The answer of a solve.
pub fn tell_solved(solved: Result<LinearSolveReport, Refusal>) -> ReportForC
    ensures { result ≡ solved_struct solved }
{
    match solved {
        Ok(report) => {
            let status = report.status;
            ReportForC {
                answer: AnswerForC::DONE,
                converged: converged_number(status),
                iterations: report.iterations,
                initial_residual: report.initial_residual,
                final_residual: report.final_residual,
                relative_residual: report.relative_residual,
            }
        }
        Err(refusal) => ReportForC {
            answer: AnswerForC::from(refusal),
            converged: 0,
            iterations: 0,
            initial_residual: 0.0,
            final_residual: 0.0,
            relative_residual: 0.0,
        },
    }
}

// The answer of `statistics`.
pub fn tell_counted(counted: Result<u64, Refusal>) -> CountForC
    ensures { result ≡ counted_struct counted }
{
    match counted {
        Ok(levels) => CountForC {
            answer: AnswerForC::DONE,
            levels,
        },
        Err(refusal) => CountForC {
            answer: AnswerForC::from(refusal),
            levels: 0,
        },
    }
}
