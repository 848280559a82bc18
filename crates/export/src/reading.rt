// What C hands over, read: controls and handle.
ghost use Rattle.std.specs.Prelude.{◌≡◌};
ghost use Rattle.export.specs.Structs.{in_range, levels_allowed, controls_of, handle_of, limits_of};

use crate::controls::{coarse_solver_of, residual_norm_of, smoother_of};
use crate::structs::{HierarchyForC, OptionsForC};
use options::{Handle, MultigridOptions};
use solver::LinearSolverOptions;

// Whether the enums' numbers and the yes or no are in range.
fn in_range(o: OptionsForC) -> bool
    ensures { result ≡ in_range o }
{
    (o.smoother <= 2) & (o.residual_norm <= 1) & (o.coarse_solver <= 1) & (o.scale_correction <= 1)
}

// The levels that are allowed: none where a number is out of range.
fn levels_allowed(o: OptionsForC) -> u64
    ensures { result ≡ levels_allowed o }
{
    if in_range(o) { o.max_levels } else { 0 }
}

// The controls of a struct. One that is out of range allows no level, so that question 6 refuses it.
pub fn read_options(o: OptionsForC) -> MultigridOptions
    ensures { result ≡ controls_of o }
{
    MultigridOptions {
        smoother: smoother_of(o.smoother),
        residual_norm: residual_norm_of(o.residual_norm),
        pre_sweeps: o.pre_sweeps,
        post_sweeps: o.post_sweeps,
        finest_sweeps: o.finest_sweeps,
        sweep_level_multiplier: o.sweep_level_multiplier,
        max_sweeps: o.max_sweeps,
        coarsest_cells: o.coarsest_cells,
        max_levels: levels_allowed(o),
        merge_levels: o.merge_levels,
        krylov_dimension: o.krylov_dimension,
        coarse_solver: coarse_solver_of(o.coarse_solver),
        coarse_absolute_tolerance: o.coarse_absolute_tolerance,
        coarse_relative_tolerance: o.coarse_relative_tolerance,
        coarse_max_iterations: o.coarse_max_iterations,
        scale_correction: o.scale_correction != 0,
        max_aggregate_cells: o.max_aggregate_cells,
    }
}

// The handle of a struct. Kept out of line: what it reads would else stand in the frames of the calls.
#[inline(never)]
pub fn read_handle(h: HierarchyForC) -> Handle
    ensures { result ≡ handle_of h }
{
    let given = h.options;
    Handle {
        options: read_options(given),
        levels: h.levels,
        rows: h.rows,
        entries: h.entries,
    }
}

// The tolerances and the limit of a solve.
pub fn read_limits(absolute: f64, relative: f64, limit: u64) -> LinearSolverOptions
    ensures { result ≡ limits_of absolute relative limit }
{
    LinearSolverOptions {
        absolute_tolerance: absolute,
        relative_tolerance: relative,
        max_iterations: limit,
    }
}
