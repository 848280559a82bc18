// How often a level is smoothed before and after the coarser levels' correction (cycle.rs).
ghost use Rattle.std.specs.Prelude.{◌≡◌, min};
ghost use Rattle.options.specs.Counts.{extra_of, pre_sweeps_of, post_sweeps_of};

use crate::options::MultigridOptions;
use float::{saturating_add, saturating_mul};

// Sweeps added for each level below the second.
fn extra_sweeps_at(o: MultigridOptions, depth: u64) -> u64
    ensures { result ≡ min (extra_of o depth) 18446744073709551615 }
{
    if depth == 0 {
        return 0;
    }
    saturating_mul(o.sweep_level_multiplier, depth - 1)
}

// None on the finest level, and none at all where the control is zero.
pub fn pre_sweeps_at(o: MultigridOptions, depth: u64) -> u64
    ensures { result ≡ pre_sweeps_of o depth }
{
    if depth == 0 {
        return 0;
    }
    let extra = if o.pre_sweeps == 0 {
        0
    } else {
        extra_sweeps_at(o, depth)
    };
    saturating_add(o.pre_sweeps, extra).min(o.max_sweeps)
}

// The finest level has a count of its own; on the others the extra sweeps come even where the control is zero.
pub fn post_sweeps_at(o: MultigridOptions, depth: u64) -> u64
    ensures { result ≡ post_sweeps_of o depth }
{
    if depth == 0 {
        return o.finest_sweeps;
    }
    let extra = extra_sweeps_at(o, depth);
    saturating_add(o.post_sweeps, extra).min(o.max_sweeps)
}
