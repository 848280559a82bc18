// The directions of acceleration.rs: a new pair made orthogonal to the stored ones.
ghost use Rattle.std.specs.Prelude.{length};
ghost use Rattle.store.specs.Region.{part, Wrote};
ghost use Rattle.acceleration.specs.Directions.{less_of, orthogonal_to, pass_of};
ghost use Rattle.acceleration.specs.DirectionsContract.{pair_at, memory_at, AxpyOk, StepOk, Stepped, PassOk};

use crate::workspace::{GcrWorkspace, PairPlace};
use refusal::Refusal;

// y -= a * x
fn lessen(f: &mut [f64], n: usize, a: f64, x: usize, y: usize)
    requires { AxpyOk (length f.old) n x y }
    ensures { Wrote y n (less_of n a (part x n f.old) (part y n f.old)) f.old
        f.new }
{
    for row in 0..n {
        f[y + row] -= a * f[x + row];
    }
}

// A stored pair out of the new one, refused where their product is not finite.
fn step(f: &mut [f64], n: usize, stored: PairPlace, pair: PairPlace) -> Result<(), Refusal>
    requires { StepOk (length f.old) n stored.direction stored.image pair.direction pair.image }
    ensures { Stepped n pair.direction pair.image
        (orthogonal_to n (pair_at n stored.direction stored.image f.old)
        (pair_at n pair.direction pair.image f.old))
        f.old f.new result }
{
    let beta = vector::dot(f, pair.image, stored.image, n).ok_or(refusal::BAD_DOT_PRODUCT)?;
    lessen(f, n, beta, stored.image, pair.image);
    lessen(f, n, beta, stored.direction, pair.direction);
    Ok(())
}

// One pass over the stored pairs.
pub fn pass(f: &mut [f64], g: GcrWorkspace, used: usize, pair: PairPlace) -> Result<(), Refusal>
    requires { PassOk (length f.old) g.rows used g.directions g.images pair.direction pair.image }
    ensures { Stepped g.rows pair.direction pair.image
        (pass_of g.rows (memory_at used g.rows g.directions g.images f.old)
        (pair_at g.rows pair.direction pair.image f.old))
        f.old f.new result }
{
    for index in 0..used {
        step(f, g.rows, g.pair(index), pair)?;
    }
    Ok(())
}
