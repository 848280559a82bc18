// cycle.rs: the float work of a cycle on one level, over regions of the store: the residual, and a correction that is added
// as it is.
ghost use Rattle.std.specs.Prelude.{length};
ghost use Rattle.store.specs.Region.{part, Wrote, CopyOk};
ghost use Rattle.correction.specs.Correction.{SubtractOk, subtract_of, add_plain_of};

// The residual: the right-hand side less the product.
pub fn subtract(f: &mut [f64], n: usize, rhs: usize, product: usize, out: usize)
    requires { SubtractOk (length f.old) n rhs product out }
    ensures { Wrote out n
        (subtract_of n (part rhs n f.old) (part product n f.old))
        f.old f.new }
{
    for row in 0..n {
        f[out + row] = f[rhs + row] - f[product + row];
    }
}

// The correction as it is, with no Jacobi step.
pub fn add_plain(f: &mut [f64], n: usize, correction: usize, x: usize)
    requires { CopyOk (length f.old) n correction x }
    ensures { Wrote x n
        (add_plain_of n (part correction n f.old) (part x n f.old))
        f.old f.new }
{
    for row in 0..n {
        f[x + row] += f[correction + row];
    }
}
