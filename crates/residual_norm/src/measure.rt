// mod.rs: how a solve measures its residual, over regions of the store. These sums run in row order, with no blocks.
ghost use Rattle.std.specs.Prelude.{◌≡◌, ◌+◌, ◌≤◌, length};
ghost use Rattle.store.specs.Region.{part};
ghost use Rattle.residual_norm.specs.Measure.{value_of, measure_of};
ghost use Rattle.residual_norm.specs.Turns.{squares_of, sizes_of};

use crate::rows::sum_rows;
use options::MultigridResidualNorm;

// The squares of the elements of v, added up.
fn sum_squares(v: &[f64]) -> f64
    ensures { result ≡ squares_of (length v.now) v.now }
{
    sum_rows(v.len(), |row| v[row] * v[row])
}

// Their absolute values, added up.
fn sum_sizes(v: &[f64]) -> f64
    ensures { result ≡ sizes_of (length v.now) v.now }
{
    sum_rows(v.len(), |row| float::abs(v[row]))
}

// The norm of a residual.
fn value(residual: &[f64], norm: MultigridResidualNorm, factor: f64) -> f64
    ensures { result ≡ value_of norm (length residual.now) residual.now factor }
{
    match norm {
        MultigridResidualNorm::AbsoluteL2 => float::sqrt(sum_squares(residual)),
        MultigridResidualNorm::NormalizedL1 => sum_sizes(residual) / factor,
    }
}

// Question 23: the norm of the residual is finite. Kept out of line, so that its frame does not stand under those of a solve.
#[inline(never)]
pub fn measure(
    f: &[f64],
    n: usize,
    residual: usize,
    norm: MultigridResidualNorm,
    factor: f64,
) -> Option<f64>
    requires { residual + n ≤ length f.now }
    ensures { result ≡ measure_of norm n (part residual n f.now) factor }
{
    let value = value(&f[residual..residual + n], norm, factor);
    if float::is_finite(value) {
        Some(value)
    } else {
        None
    }
}
