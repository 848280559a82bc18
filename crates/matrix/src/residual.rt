// matrix.rs: the fused residual of a matrix, over regions of the store.
ghost use Rattle.std.specs.Prelude.{◌≡◌, ◌+◌, ◌≤◌, length};
ghost use Rattle.store.specs.Loop.{for};
ghost use Rattle.store.specs.Region.{part, Wrote};
ghost use Rattle.matrix.specs.Contract.{KernelOk};
ghost use Rattle.matrix.specs.Kernel.{kernel_at, residual_of};
ghost use Rattle.matrix.specs.Turns.{less_turn};

use crate::matrix::SymmetricMatrix;
use crate::spread::{Minus, spread_rows};

// output = rhs - diagonal * x.
fn diagonal_residual(f: &mut [f64], s: SymmetricMatrix, x: usize, rhs: usize, out: usize)
    requires rows_in_bounds { s.diagonal + s.rows ≤ length f.old }
    requires rows_in_bounds_2 { x + s.rows ≤ length f.old }
    requires rows_in_bounds_3 { rhs + s.rows ≤ length f.old }
    requires rows_in_bounds_4 { out + s.rows ≤ length f.old }
    ensures { f.new ≡ for (less_turn s x rhs out) 0 s.rows f.old }
{
    for row in 0..s.rows {
        f[out + row] = f[rhs + row] - f[s.diagonal + row] * f[x + row];
    }
}

// Fuses b - A x for smoothing, avoiding a separate pass over the vector.
pub fn residual(w: &[u32], f: &mut [f64], s: SymmetricMatrix, x: usize, rhs: usize, out: usize)
    requires kernel_ok { KernelOk w.now rhs s }
    requires rows_bound { rhs + s.rows ≤ x }
    requires rows_bound_2 { x + s.rows ≤ out }
    requires rows_in_bounds { out + s.rows ≤ length f.old }
    ensures { Wrote out s.rows (residual_of (kernel_at s w.now f.old) (part x s.rows f.old) (part rhs s.rows f.old)) f.old f.new }
{
    diagonal_residual(f, s, x, rhs, out);
    spread_rows::<Minus>(w, f, s, x, out);
}
