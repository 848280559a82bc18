// Controls as numbers, as they cross to C. A number past an enum's last stands for the last, so that these functions refuse none: where
// it is a fault, `reading::in_range` has asked, or the record's own question. They are no `From<u64>`, which would have to stand beside
// the enums, in a crate that knows nothing of C's numbers.
ghost use Rattle.std.specs.Prelude.{◌≡◌};
ghost use Rattle.export.specs.Flat.{smoother_of, residual_norm_of, coarse_solver_of, options_of};

use options::{MultigridCoarseSolver, MultigridOptions, MultigridResidualNorm, MultigridSmoother};

// The smoother of a number; a number past the end is the last.
pub fn smoother_of(number: u64) -> MultigridSmoother
    ensures { result ≡ smoother_of number }
{
    match number {
        0 => MultigridSmoother::GaussSeidel,
        1 => MultigridSmoother::SymmetricGaussSeidel,
        _ => MultigridSmoother::DicGaussSeidel,
    }
}

// The same of a residual norm.
pub fn residual_norm_of(number: u64) -> MultigridResidualNorm
    ensures { result ≡ residual_norm_of number }
{
    match number {
        0 => MultigridResidualNorm::AbsoluteL2,
        _ => MultigridResidualNorm::NormalizedL1,
    }
}

// The same of a coarse solver.
pub fn coarse_solver_of(number: u64) -> MultigridCoarseSolver
    ensures { result ≡ coarse_solver_of number }
{
    match number {
        0 => MultigridCoarseSolver::PcgDic,
        _ => MultigridCoarseSolver::Cholesky,
    }
}

// The controls, in the order of the source, and the cap. The numbers come apart, as `options_of` of specs/Flat.antt takes them: its
// callers are other crates, and each has them from numbers of its own.
pub fn options_of(
    smoother: u8,
    residual_norm: u8,
    pre_sweeps: u64,
    post_sweeps: u64,
    finest_sweeps: u64,
    sweep_level_multiplier: u64,
    max_sweeps: u64,
    coarsest_cells: u64,
    max_levels: u64,
    merge_levels: u64,
    krylov_dimension: u64,
    coarse_solver: u8,
    coarse_absolute_tolerance: f64,
    coarse_relative_tolerance: f64,
    coarse_max_iterations: u64,
    scale_correction: u8,
    max_aggregate_cells: u64,
) -> MultigridOptions
    ensures { result ≡ options_of smoother residual_norm pre_sweeps post_sweeps finest_sweeps sweep_level_multiplier max_sweeps
        coarsest_cells max_levels merge_levels krylov_dimension coarse_solver coarse_absolute_tolerance
        coarse_relative_tolerance coarse_max_iterations scale_correction
        max_aggregate_cells }
{
    MultigridOptions {
        smoother: smoother_of(u64::from(smoother)),
        residual_norm: residual_norm_of(u64::from(residual_norm)),
        pre_sweeps,
        post_sweeps,
        finest_sweeps,
        sweep_level_multiplier,
        max_sweeps,
        coarsest_cells,
        max_levels,
        merge_levels,
        krylov_dimension,
        coarse_solver: coarse_solver_of(u64::from(coarse_solver)),
        coarse_absolute_tolerance,
        coarse_relative_tolerance,
        coarse_max_iterations,
        scale_correction: scale_correction != 0,
        max_aggregate_cells,
    }
}
