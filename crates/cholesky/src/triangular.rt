// `solve_factor` of hierarchy.rs: forward and backward substitution by the packed factor.
ghost use Rattle.std.specs.Prelude.{◌≡◌, ◌+◌, ◌≤◌, length};
ghost use Rattle.store.specs.Region.{part, Wrote};
ghost use Rattle.cholesky.specs.Triangle.{tri};
ghost use Rattle.cholesky.specs.TriangleContract.{RowAt};
ghost use Rattle.cholesky.specs.TriangularFactor.{solve_factor_of};
ghost use Rattle.cholesky.specs.TriangularContract.{SolveOk, Lowered, High, Raised};

use crate::packed;

// `SolveOk`, which each function here asks, tells that factor and x lie apart in the store that is lent: of places alone, with the rows as
// a struct, no invariant could say so.

// Forward substitution in place. It returns where the factor ends.
fn lower_solve(f: &mut [f64], n: usize, l: usize, x: usize) -> usize
    requires { SolveOk (length f.old) n l x }
    ensures { Lowered n l x f.old f.new result }
{
    let mut start = 0;
    for row in 0..n {
        let own = f[x + row];
        let value = packed::less(f, l + start, x, row, own);
        f[x + row] = value / f[l + start + row];
        start += row + 1;
    }
    start
}

// x[row] less the column under the diagonal by x.
fn high_rest(f: &[f64], n: usize, l: usize, x: usize, row: usize, start: usize) -> f64
    requires solve_ok { SolveOk (length f.now) n l x }
    requires row_at { RowAt n row start }
    ensures { High f.now n l x row result }
{
    let mut value = f[x + row];
    let mut own = start + row + 1;
    for k in row + 1..n {
        value -= f[l + own + row] * f[x + k];
        own += k + 1;
    }
    value
}

// Backward substitution in place; the factor ends at top.
// No `rev`: `Raised` speaks of the count j of the rows done.
fn upper_solve(f: &mut [f64], n: usize, l: usize, x: usize, top: usize)
    requires solve_ok { SolveOk (length f.old) n l x }
    requires top_value { top ≡ tri n }
    ensures { Raised n l x f.old f.new }
{
    let mut start = top;
    for j in 0..n {
        let row = n - 1 - j;
        start -= row + 1;
        let value = high_rest(f, n, l, x, row, start);
        f[x + row] = value / f[l + start + row];
    }
}

// x = the solution for rhs, by the packed factor at l.
pub fn solve_factor(f: &mut [f64], n: usize, l: usize, rhs: usize, x: usize)
    requires solve_ok { SolveOk (length f.old) n l x }
    requires n_bound { rhs + n ≤ x }
    ensures { Wrote x n (solve_factor_of n (part l (tri n) f.old) (part rhs n f.old))
        f.old f.new }
{
    store::copy(f, n, rhs, x);
    let top = lower_solve(f, n, l, x);
    upper_solve(f, n, l, x, top);
}
