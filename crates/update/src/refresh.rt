// `update_values` of mod.rs: new values for the levels of a hierarchy. The new image is computed in a shadow behind the old one and copied
// over it once nothing can be refused any more.
ghost use Rattle.std.specs.Prelude.{◌≡◌, length};
ghost use Rattle.update.specs.Updated.{updated_at, UpdateDone};
ghost use Rattle.update.specs.ShadowContract.{With};
ghost use Rattle.update.specs.Steps.{CommitOk, Committed, AttemptOk, attempt_of, Attempted, UpdateOk};

use crate::questions::Lent;
use crate::{questions, shadow};
use options::{Handle, MultigridResidualNorm, MultigridSmoother};
use refusal::Refusal;

// The numbers of all levels, copied from the shadow, which starts at `image`, over the old ones. The values before a level's numbers
// are left out: no call reads them again.
fn commit(w: &[u32], f: &mut [f64], levels: u64, image: usize)
    requires { CommitOk levels w.now (length f.old) image }
    ensures { Committed levels w.now f.old f.new image }
{
    let mut level = 0;
    let mut a = 0;
    let mut p = layout::place_at(w, 0, 0);
    // The row sums end the image. They are not copied: no question is asked of them, so they are made in their place.
    let end = image - p.rows;
    // A while: the walk goes from place to place, and a for's counter would serve the proof alone.
    while level + 1 < levels {
        let from = p.coefficients;
        store::copy(f, p.factor - from, image + from, from);
        a = layout::words_end(w, a);
        p = layout::place_at(w, a, p.factor);
        level += 1;
    }
    let first = p.coefficients;
    store::copy(f, end - first, image + first, first);
}

// Questions 31 and 10, the new levels in the shadow, the copy over the old ones, and the row sums.
fn attempt(
    w: &[u32],
    f: &mut [f64],
    kind: MultigridSmoother,
    norm: MultigridResidualNorm,
    levels: u64,
    x: Lent,
) -> Result<(), Refusal>
    requires { AttemptOk levels w.now (length f.old) }
    ensures { With kind norm (λ o. Attempted levels w.now f.old f.new (attempt_of o levels w.now f.old x.entry.offsets.now x.entry.columns.now x.entry.values.now) result) }
{
    let image = index_check::shadow_start(w, levels);
    questions::asked(w, f, x, image)?;
    shadow::shadow(w, f, kind, levels, x.values, image)?;
    commit(w, f, levels, image);
    shadow::sums(w, f, norm, image);
    Ok(())
}

// New values for a hierarchy, of the pattern that it was built from. Refused, no word of the image has changed. One of no levels has no
// values: its arrays are asked, and nothing is written.
pub fn update(
    h: Handle,
    offsets: &[u32],
    columns: &[u32],
    values: &[f64],
    w: &[u32],
    f: &mut [f64],
) -> Result<(), Refusal>
    requires { UpdateOk h w.now (length f.old) }
    ensures { UpdateDone h w.now f.old f.new (updated_at h w.now f.old offsets.now columns.now values.now) result }
{
    let x = Lent {
        offsets,
        columns,
        values,
    };
    if h.levels == 0 {
        return questions::asked_empty(x);
    }
    let options = h.options;
    attempt(w, f, options.smoother, options.residual_norm, h.levels, x)
}
