// matrix.rs: the symmetric face-addressed matrix of a level, and its product over regions of the store.
ghost use Rattle.std.specs.Prelude.{◌≡◌, ◌+◌, ◌≤◌, length};
ghost use Rattle.store.specs.Loop.{for};
ghost use Rattle.store.specs.Region.{part, Wrote};
ghost use Rattle.matrix.specs.Contract.{KernelOk};
ghost use Rattle.matrix.specs.Kernel.{kernel_at, apply_of};
ghost use Rattle.matrix.specs.Turns.{product_turn};

use crate::spread::{Plus, spread_rows};

// Where a matrix lies: offsets and neighbors in the words, the others in the floats. Each coefficient is stored once.
// That its faces and a vector of `rows` floats lie in the stores (`KernelOk`, `VectorsOk`, `out + s.rows ≤ length f.old`) is a fact of the lent words and
// of the floats' length as well: an invariant of this struct could say it only if the struct borrowed both stores, so each function's clauses do.
#[derive(Clone, Copy)]
pub struct SymmetricMatrix {
    pub rows: usize,
    pub diagonal: usize,
    pub inverse: usize,
    pub offsets: usize,
    pub neighbors: usize,
    pub coefficients: usize,
}

// output = diagonal * x.
fn diagonal_product(f: &mut [f64], s: SymmetricMatrix, x: usize, out: usize)
    requires rows_in_bounds { s.diagonal + s.rows ≤ length f.old }
    requires rows_in_bounds_2 { x + s.rows ≤ length f.old }
    requires rows_in_bounds_3 { out + s.rows ≤ length f.old }
    ensures { f.new ≡ for (product_turn s x out) 0 s.rows f.old }
{
    for row in 0..s.rows {
        f[out + row] = f[s.diagonal + row] * f[x + row];
    }
}

// output = A x.
pub fn apply(w: &[u32], f: &mut [f64], s: SymmetricMatrix, x: usize, out: usize)
    requires kernel_ok { KernelOk w.now x s }
    requires rows_bound { x + s.rows ≤ out }
    requires rows_in_bounds { out + s.rows ≤ length f.old }
    ensures { Wrote out s.rows (apply_of (kernel_at s w.now f.old) (part x s.rows f.old)) f.old f.new }
{
    diagonal_product(f, s, x, out);
    spread_rows::<Plus>(w, f, s, x, out);
}
