// A lower triangle packed by rows, as the factor of hierarchy.rs is kept, and the sums over its rows.
ghost use Rattle.std.specs.Prelude.{◌≡◌, ◌≤◌, length};
ghost use Rattle.cholesky.specs.Triangle.{tri};
ghost use Rattle.cholesky.specs.TriangleContract.{LessOk, Less};

// own less f[p + k] * f[q + k] for each k below m.
pub fn less(f: &[f64], p: usize, q: usize, m: usize, own: f64) -> f64
    requires { LessOk (length f.now) p q m }
    ensures { Less f.now p q m own result }
{
    let mut value = own;
    for k in 0..m {
        value -= f[p + k] * f[q + k];
    }
    value
}

// Where a packed triangle of n rows ends: a sum, since n * (n + 1) might not fit where its half does.
pub fn triangle(n: usize) -> usize
    requires { tri n ≤ 18446744073709551615 }
    ensures { result ≡ tri n }
{
    let mut end = 0;
    for row in 0..n {
        end += row + 1;
    }
    end
}
