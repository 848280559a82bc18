// The row sums of the finest level, by which a solve normalizes its residual.
ghost use Rattle.std.specs.Prelude.{◌+◌, ◌≤◌, length};
ghost use Rattle.store.specs.Region.{Wrote};
ghost use Rattle.matrix.specs.Kernel.{KernelOk};
ghost use Rattle.layout.specs.SumsContract.{sums_at};

use matrix::SymmetricMatrix;
use options::MultigridResidualNorm;

// The row sums of the matrix at s, written at `to`, where the norm needs them; else zeros.
pub fn row_sums(
    w: &[u32],
    f: &mut [f64],
    norm: MultigridResidualNorm,
    s: SymmetricMatrix,
    to: usize,
)
    requires kernel_ok { KernelOk w.now to s }
    requires rows_in_bounds { to + s.rows ≤ length f.old }
    ensures { Wrote to s.rows (sums_at norm w.now f.old s) f.old f.new }
{
    match norm {
        MultigridResidualNorm::AbsoluteL2 => store::fill(f, to, s.rows, 0.0),
        MultigridResidualNorm::NormalizedL1 => {
            matrix::row_sums_into(w, f, s, to);
        }
    }
}
