// vector.rs: the finiteness test of a region of the store.
ghost use Rattle.std.specs.Prelude.{◌≡◌, ◌+◌, ◌≤◌, length};
ghost use Rattle.store.specs.Region.{part};
ghost use Rattle.vector.specs.Finite.{all_finite};

// Whether each of the n elements at x is finite.
// A fold by `&`, and no `all`: no branch leaves the loop, so that it takes several elements at once.
pub fn all_finite(f: &[f64], n: usize, x: usize) -> bool
    requires { x + n ≤ length f.now }
    ensures { result ≡ all_finite n (part x n f.now) }
{
    let mut ok = true;
    for k in 0..n {
        ok = ok & float::is_finite(f[x + k]);
    }
    ok
}
