// The structs of the exports, handed over and answered by value. Every field has eight bytes, so that none has padding.
// include/multigrid.h declares the same.

// The controls: enums by their place in the source from 0, yes as 1 and no as 0.
#[repr(C)]
#[derive(Clone, Copy)]
pub struct OptionsForC {
    pub smoother: u64,
    pub residual_norm: u64,
    pub pre_sweeps: u64,
    pub post_sweeps: u64,
    pub finest_sweeps: u64,
    pub sweep_level_multiplier: u64,
    pub max_sweeps: u64,
    pub coarsest_cells: u64,
    pub max_levels: u64,
    pub merge_levels: u64,
    pub krylov_dimension: u64,
    pub coarse_solver: u64,
    pub coarse_absolute_tolerance: f64,
    pub coarse_relative_tolerance: f64,
    pub coarse_max_iterations: u64,
    pub scale_correction: u64,
    pub max_aggregate_cells: u64,
}

// The handle, with the controls as they were given to the build.
#[repr(C)]
#[derive(Clone, Copy)]
pub struct HierarchyForC {
    pub options: OptionsForC,
    pub levels: u64,
    pub rows: u64,
    pub entries: u64,
}

// Zero or the number of the question that refused, and where.
#[repr(C)]
#[derive(Clone, Copy)]
pub struct AnswerForC {
    pub question: u64,
    pub level: u64,
    pub row: u64,
}

// The answer of a build.
#[repr(C)]
#[derive(Clone, Copy)]
pub struct BuiltForC {
    pub answer: AnswerForC,
    pub hierarchy: HierarchyForC,
}

// The answer of a solve.
#[repr(C)]
#[derive(Clone, Copy)]
pub struct ReportForC {
    pub answer: AnswerForC,
    pub converged: u64,
    pub iterations: u64,
    pub initial_residual: f64,
    pub final_residual: f64,
    pub relative_residual: f64,
}

// The answer of `statistics`.
#[repr(C)]
#[derive(Clone, Copy)]
pub struct CountForC {
    pub answer: AnswerForC,
    pub levels: u64,
}
