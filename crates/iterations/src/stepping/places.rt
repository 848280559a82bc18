// Where the finest matrix and the vectors of a solve stand.
ghost use Rattle.std.specs.Prelude.{◌≡◌};
ghost use Rattle.iterations.specs.Steps.{Opened, regions_at};

use crate::stepping::Regions;
use options::Handle;

// The row sums end the image, whose shadow ends where the scratch starts. There stand right-hand side, solution, the directions and
// images of GCR, and then the vectors of the cycle: residual and correction are the right-hand side and the x of the finest level, the
// product is its work.
pub fn regions(h: Handle, w: &[u32]) -> Regions
    requires { Opened h w.now 18446744073709551615 }
    ensures { result ≡ regions_at h w.now }
{
    let n = h.rows as usize;
    let krylov = h.options.krylov_dimension;
    let image = index_check::shadow_start(w, h.levels);
    let start = 2 * image;
    let residual = index_check::cycle_start(w, h.levels, krylov);
    let matrix = layout::kernel_in(layout::place_at(w, 0, 0));
    Regions {
        matrix,
        rows: n,
        sums: image - n,
        rhs: start,
        solution: start + n,
        directions: start + 2 * n,
        images: start + 2 * n + (krylov as usize) * n,
        residual,
        correction: residual + n,
        product: residual + 2 * n,
    }
}
