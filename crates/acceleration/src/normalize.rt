// acceleration.rs: a new pair over the norm of its image.
ghost use Rattle.std.specs.Prelude.{◌≡◌, ◌&&◌, ◌+◌, ◌≤◌, length};
ghost use Rattle.store.specs.Region.{part, Wrote};
ghost use Rattle.vector.specs.Finite.{all_finite};
ghost use Rattle.acceleration.specs.DirectionsContract.{pair_at, AxpyOk};
ghost use Rattle.acceleration.specs.Normal.{over_of, normal_of};
ghost use Rattle.acceleration.specs.NormalizeContract.{NormalOk, Normal};

use crate::workspace::PairPlace;
use refusal::Refusal;

// y = x / a
fn over(f: &mut [f64], n: usize, a: f64, x: usize, y: usize)
    requires { AxpyOk (length f.old) n x y }
    ensures { Wrote y n (over_of n a (part x n f.old)) f.old f.new }
{
    for row in 0..n {
        f[y + row] = f[x + row] / a;
    }
}

// The new pair over the norm of its image, stored. The source tests row by row; question 30 names no row.
pub fn normalize(f: &mut [f64], n: usize, stored: PairPlace, pair: PairPlace) -> Result<(), Refusal>
    requires { NormalOk (length f.old) n stored.direction stored.image pair.direction pair.image }
    ensures { Normal n stored.direction stored.image
        (normal_of n (pair_at n pair.direction pair.image f.old)) f.old f.new result }
{
    let norm = vector::norm_l2(f, pair.image, n).ok_or(refusal::BAD_DOT_PRODUCT)?;
    if norm == 0.0 {
        return Err(refusal::ZERO_IMAGE);
    }
    over(f, n, norm, pair.direction, stored.direction);
    over(f, n, norm, pair.image, stored.image);
    if both_finite(f, n, stored) {
        Ok(())
    } else {
        Err(refusal::BAD_DIRECTION)
    }
}

// Whether a stored pair is finite.
fn both_finite(f: &[f64], n: usize, stored: PairPlace) -> bool
    requires n_in_bounds { stored.direction + n ≤ length f.now }
    requires n_in_bounds_2 { stored.image + n ≤ length f.now }
    ensures { result ≡ all_finite n (part stored.direction n f.now) && all_finite n (part stored.image n f.now) }
{
    vector::all_finite(f, n, stored.direction) && vector::all_finite(f, n, stored.image)
}
