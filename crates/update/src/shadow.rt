// The new image of `update_values` of mod.rs: the levels, computed in a shadow behind the old image, and the row sums of the finest.
ghost use Rattle.std.specs.Prelude.{length};
ghost use Rattle.layout.specs.Layout.{locate};
ghost use Rattle.update_levels.specs.Level.{FacesReady};
ghost use Rattle.update_levels.specs.Steps.{Renewed};
ghost use Rattle.update.specs.ShadowContract.{SumOk, Summed, Smoothed, ShadowOk};

use options::{MultigridResidualNorm, MultigridSmoother};
use refusal::Refusal;

// The levels of the new image in the shadow, which starts where the old image ends and already has the coefficients of the finest.
pub fn shadow(
    w: &[u32],
    f: &mut [f64],
    kind: MultigridSmoother,
    levels: u64,
    values: &[f64],
    image: usize,
) -> Result<(), Refusal>
    requires shadow_ok { ShadowOk levels w.now (length f.old) (length values.now) image }
    requires faces_ready { FacesReady w.now values.now f.old (locate w.now 0 image) }
    ensures { Smoothed kind (λ o. Renewed o levels 0 w.now values.now f.old f.new 0 image result) }
{
    update_levels::renew(w, values, f, options::needs_dic(kind), levels, image)
}

// The row sums of the finest level, where the norm needs them; else zeros. They end the image. Kept out of line, so that its frame does not
// stand under those of the levels.
#[inline(never)]
pub fn sums(w: &[u32], f: &mut [f64], norm: MultigridResidualNorm, image: usize)
    requires { SumOk w.now (length f.old) image }
    ensures { Summed w.now f.old f.new norm image }
{
    let p = layout::place_at(w, 0, 0);
    let start = image - p.rows;
    layout::row_sums(w, f, norm, layout::kernel_in(p), start);
}
