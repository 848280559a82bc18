// CO: the controls.
ghost use Rattle.std.specs.Prelude.{◌≡◌};
ghost use Rattle.record_format.specs.Format.{controls_ok, controls_at, read_controls};
ghost use Rattle.record_format.specs.Answers.{controlsAnswer};

use crate::bytes::{byte_at, float_at, u64_at};
use crate::marks::{Mark, is_marked};
use export::controls::{coarse_solver_of, residual_norm_of, smoother_of};
use options::MultigridOptions;
use refusal::Refusal;

// Whether bytes are a CO record. One expression of `&`: no branch.
fn controls_ok(b: &[u8]) -> bool
    ensures { result ≡ controls_ok b.now }
{
    (b.len() == 110)
        & is_marked(b, Mark::Controls)
        & (byte_at(b, 2) < 3)
        & (byte_at(b, 3) < 2)
        & (byte_at(b, 76) < 2)
        & (byte_at(b, 101) < 2)
}

// The controls at their places.
fn controls_at(b: &[u8]) -> MultigridOptions
    ensures { result ≡ controls_at b.now }
{
    MultigridOptions {
        smoother: smoother_of(byte_at(b, 2)),
        residual_norm: residual_norm_of(byte_at(b, 3)),
        pre_sweeps: u64_at(b, 4),
        post_sweeps: u64_at(b, 12),
        finest_sweeps: u64_at(b, 20),
        sweep_level_multiplier: u64_at(b, 28),
        max_sweeps: u64_at(b, 36),
        coarsest_cells: u64_at(b, 44),
        max_levels: u64_at(b, 52),
        merge_levels: u64_at(b, 60),
        krylov_dimension: u64_at(b, 68),
        coarse_solver: coarse_solver_of(byte_at(b, 76)),
        coarse_absolute_tolerance: float_at(b, 77),
        coarse_relative_tolerance: float_at(b, 85),
        coarse_max_iterations: u64_at(b, 93),
        scale_correction: byte_at(b, 101) == 1,
        max_aggregate_cells: u64_at(b, 102),
    }
}

// The controls of a CO record.
pub fn read_controls(b: &[u8]) -> Result<MultigridOptions, Refusal>
    ensures { result ≡ controlsAnswer (read_controls b.now) }
{
    if controls_ok(b) {
        Ok(controls_at(b))
    } else {
        Err(crate::BAD_RECORD)
    }
}
