// coarse.rs: the terminal solve, every row by its diagonal and the coupled ones by the packed factor.
#![tactic(auto)]

ghost use Rattle.std.specs.Prelude.{length};
ghost use Rattle.store.specs.Region.{part, Wrote};
ghost use Rattle.coarse.specs.Turns.{diagonal_of, gather_of, scatter_of};
ghost use Rattle.coarse.specs.Contract.{DiagonalOk, SpreadOk, CoupledOk, CoupledSolved, SolutionOk, Solved};

use cholesky::{Terminal, solve_factor};
use refusal::Refusal;

// x = rhs / diagonal, by the reciprocals.
fn diagonal(f: &mut [f64], n: usize, inverse: usize, rhs: usize, x: usize)
    requires { DiagonalOk (length f.old) n inverse rhs x }
    ensures { Wrote x n (diagonal_of n (part inverse n f.old) (part rhs n f.old)) f.old
        f.new }
{
    for row in 0..n {
        f[x + row] = f[rhs + row] * f[inverse + row];
    }
}

// The right-hand side of the coupled rows, to u.
fn gather(w: &[u32], f: &mut [f64], t: Terminal, rhs: usize, u: usize)
    requires { SpreadOk w.now (length f.old) t.rows t.size t.coupled rhs u }
    ensures { Wrote u t.size
        (gather_of t.size (part t.coupled t.size w.now) (part rhs t.rows f.old))
        f.old f.new }
{
    for k in 0..t.size {
        let row = store::index_at(w, t.coupled, k, t.rows);
        f[u + k] = f[rhs + row];
    }
}

// The compact solution at u, into the coupled rows of x. It is no twin of `gather`: what it writes may go to any row of x.
fn scatter(w: &[u32], f: &mut [f64], t: Terminal, u: usize, x: usize)
    requires { SpreadOk w.now (length f.old) t.rows t.size t.coupled x u }
    ensures { Wrote x t.rows
        (scatter_of t.size (part t.coupled t.size w.now) (part u t.size f.old)
        (part x t.rows f.old))
        f.old f.new }
{
    for k in 0..t.size {
        let row = store::index_at(w, t.coupled, k, t.rows);
        f[x + row] = f[u + k];
    }
}

// The coupled rows of x, by the factor; two compact vectors stand at `work`.
fn solve_coupled(w: &[u32], f: &mut [f64], t: Terminal, rhs: usize, x: usize, work: usize)
    requires { CoupledOk w.now (length f.old) t rhs x work }
    ensures { CoupledSolved t w.now rhs x work f.old f.new }
{
    let solution = work + t.size;
    gather(w, f, t, rhs, work);
    solve_factor(f, t.size, t.factor, work, solution);
    scatter(w, f, t, solution, x);
}

// The terminal level: every row by its diagonal, the coupled ones by the factor, and question 24 over all of x.
pub fn solve(
    w: &[u32],
    f: &mut [f64],
    t: Terminal,
    inverse: usize,
    rhs: usize,
    x: usize,
    work: usize,
) -> Result<(), Refusal>
    requires { SolutionOk w.now (length f.old) t inverse rhs x work }
    ensures { Solved t w.now inverse rhs x work f.old f.new result }
{
    let n = t.rows;
    diagonal(f, n, inverse, rhs, x);
    solve_coupled(w, f, t, rhs, x, work);
    if vector::all_finite(f, n, x) {
        Ok(())
    } else {
        Err(refusal::BAD_COARSE_SOLUTION)
    }
}
