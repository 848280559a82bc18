// `validate` of `options`. The controls cross as seventeen numbers, so that the comparison sets each by itself.
ghost use Rattle.std.specs.Prelude.{◌≡◌};
ghost use Rattle.options.specs.Options.{valid_of};
ghost use Rattle.export.specs.Flat.{options_of};
ghost use Rattle.meshprobe_c.specs.Mesh.{flag};

use meshprobe::number;

#[unsafe(no_mangle)]
pub extern "C" fn probe_validate(
    smoother: u8,
    residual_norm: u8,
    pre_sweeps: u64,
    post_sweeps: u64,
    finest_sweeps: u64,
    sweep_level_multiplier: u64,
    max_sweeps: u64,
    coarsest_cells: u64,
    max_levels: u64,
    merge_levels: u64,
    krylov_dimension: u64,
    coarse_solver: u8,
    coarse_absolute_tolerance: f64,
    coarse_relative_tolerance: f64,
    coarse_max_iterations: u64,
    scale_correction: u8,
    max_aggregate_cells: u64,
) -> u8
    ensures { result ≡ flag (valid_of (options_of smoother residual_norm pre_sweeps post_sweeps finest_sweeps sweep_level_multiplier max_sweeps
        coarsest_cells max_levels merge_levels krylov_dimension coarse_solver coarse_absolute_tolerance
        coarse_relative_tolerance coarse_max_iterations scale_correction
        max_aggregate_cells)) }
{
    let options = export::options_of(
        smoother,
        residual_norm,
        pre_sweeps,
        post_sweeps,
        finest_sweeps,
        sweep_level_multiplier,
        max_sweeps,
        coarsest_cells,
        max_levels,
        merge_levels,
        krylov_dimension,
        coarse_solver,
        coarse_absolute_tolerance,
        coarse_relative_tolerance,
        coarse_max_iterations,
        scale_correction,
        max_aggregate_cells,
    );
    number(options.validate())
}
