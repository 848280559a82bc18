// cycle.rs: a correction that is scaled and added, over regions of the store.
ghost use Rattle.std.specs.Prelude.{length};
ghost use Rattle.store.specs.Region.{part, Wrote};
ghost use Rattle.correction.specs.Scaled.{ScaledOk, add_scaled_of};

// The scaled correction, and a Jacobi step on the residual that it leaves: one sum, added to x.
pub fn add_scaled(
    f: &mut [f64],
    n: usize,
    factor: f64,
    correction: usize,
    residual: usize,
    product: usize,
    inverse: usize,
    x: usize,
)
    requires { ScaledOk (length f.old) n correction residual product inverse x }
    ensures { Wrote x n
        (add_scaled_of n factor (part correction n f.old) (part residual n f.old)
        (part product n f.old) (part inverse n f.old) (part x n f.old))
        f.old f.new }
{
    for row in 0..n {
        let step = (f[residual + row] - factor * f[product + row]) * f[inverse + row];
        f[x + row] += factor * f[correction + row] + step;
    }
}
