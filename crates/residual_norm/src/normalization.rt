// mod.rs: the factor by which a solve divides the NormalizedL1 norm of its residual. Its sums run in row order, with no blocks.
ghost use Rattle.std.specs.Prelude.{◌≡◌, ◌+◌, ◌≤◌, length};
ghost use Rattle.store.specs.Region.{at, part};
ghost use Rattle.residual_norm.specs.Measure.{sum_of};
ghost use Rattle.residual_norm.specs.Normalization.{mean_of, normalization_of};
ghost use Rattle.residual_norm.specs.Contract.{NormalizationOk};
ghost use Rattle.residual_norm.specs.Turns.{spread_of, spreads_of};

use crate::rows::sum_rows;
use options::MultigridResidualNorm;

// The elements of v, added up.
fn sum(v: &[f64]) -> f64
    ensures { result ≡ sum_of (length v.now) (at v.now) }
{
    sum_rows(v.len(), |row| v[row])
}

// Their mean.
fn mean(v: &[f64]) -> f64
    ensures { result ≡ mean_of (length v.now) v.now }
{
    sum(v) / std::num::nearest_u64_to_f64(v.len() as u64)
}

// How far a row's product and right-hand side lie from its product with the mean alone.
fn spread(b: f64, ax: f64, rowsum: f64, mean: f64) -> f64
    ensures { result ≡ spread_of b ax rowsum mean }
{
    float::abs(ax - rowsum * mean) + float::abs(b - rowsum * mean)
}

// The spreads of n rows, added up.
fn sum_spreads(f: &[f64], n: usize, rhs: usize, product: usize, rowsums: usize, mean: f64) -> f64
    requires n_in_bounds { rhs + n ≤ length f.now }
    requires n_in_bounds_2 { product + n ≤ length f.now }
    requires n_in_bounds_3 { rowsums + n ≤ length f.now }
    ensures { result ≡ spreads_of n (part rhs n f.now) (part product n f.now)
        (part rowsums n f.now) mean }
{
    sum_rows(
        n,
        |row| spread(f[rhs + row], f[product + row], f[rowsums + row], mean),
    )
}

// The factor by which the NormalizedL1 norm is divided; a sum that is a NaN gives the floor. Kept out of line, so that its frame does not
// stand under those of a solve.
#[inline(never)]
pub fn normalization(
    f: &[f64],
    n: usize,
    x: usize,
    rhs: usize,
    product: usize,
    rowsums: usize,
    norm: MultigridResidualNorm,
) -> f64
    requires { NormalizationOk (length f.now) n x rhs product rowsums }
    ensures { result ≡ normalization_of norm n (part x n f.now) (part rhs n f.now)
        (part product n f.now) (part rowsums n f.now) }
{
    match norm {
        MultigridResidualNorm::AbsoluteL2 => 1.0,
        MultigridResidualNorm::NormalizedL1 => {
            let mean = mean(&f[x..x + n]);
            float::max_num(sum_spreads(f, n, rhs, product, rowsums, mean), 1e-300)
        }
    }
}
