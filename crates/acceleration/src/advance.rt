// acceleration.rs: the step along a new direction.
ghost use Rattle.std.specs.Prelude.{length};
ghost use Rattle.store.specs.Region.{part, Wrote};
ghost use Rattle.acceleration.specs.DirectionsContract.{pair_at, AxpyOk};
ghost use Rattle.acceleration.specs.Advance.{advance_of};
ghost use Rattle.acceleration.specs.Turns.{more_of};
ghost use Rattle.acceleration.specs.AdvanceContract.{AdvanceOk, Advanced};

use crate::workspace::PairPlace;
use refusal::Refusal;

// y += a * x
// No loop shared with `lessen` and `over`: they differ by the operation, and one that takes it as a closure would be no plainer.
// `AxpyOk`, which all three ask, tells of two places in the store that is lent: there is no value whose invariant it could be.
fn more(f: &mut [f64], n: usize, a: f64, x: usize, y: usize)
    requires { AxpyOk (length f.old) n x y }
    ensures { Wrote y n (more_of n a (part x n f.old) (part y n f.old)) f.old
        f.new }
{
    for row in 0..n {
        f[y + row] += a * f[x + row];
    }
}

// The solution moved along a stored pair; refused, and nothing moved, where the product is not finite.
pub fn advance(
    f: &mut [f64],
    n: usize,
    solution: usize,
    stored: PairPlace,
    residual: usize,
) -> Result<(), Refusal>
    requires { AdvanceOk (length f.old) n solution stored.direction stored.image residual }
    ensures { Advanced n solution
        (advance_of n (part residual n f.old) (pair_at n stored.direction stored.image f.old)
        (part solution n f.old))
        f.old f.new result }
{
    let alpha = vector::dot(f, residual, stored.image, n).ok_or(refusal::BAD_DOT_PRODUCT)?;
    more(f, n, alpha, stored.direction, solution);
    Ok(())
}
