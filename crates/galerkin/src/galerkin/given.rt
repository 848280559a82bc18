// The sums of `galerkin` of aggregation.rs, of values that are given in a slice of their own.
ghost use Rattle.std.specs.Prelude.{length};
ghost use Rattle.store.specs.Loop.{for};
ghost use Rattle.store.specs.Region.{part, Wrote};
ghost use Rattle.galerkin.specs.Values.{sums_of};
ghost use Rattle.galerkin.specs.Turns.{add_entry};
ghost use Rattle.galerkin.specs.Contract.{GivenOk};

use store::{fill, index_at};

// Each of the first m values that are given is added at its position.
fn add_given(
    w: &[u32],
    given: &[f64],
    f: &mut [f64],
    m: usize,
    positions: usize,
    total: usize,
    out: usize,
)
    requires { GivenOk w.now (length f.old) (length given.now) m positions total out }
    ensures { Wrote out total
        (for (add_entry (part positions m w.now) given.now) 0 m (part out total f.old))
        f.old f.new }
{
    for e in 0..m {
        let i = index_at(w, positions, e, total);
        f[out + i] += given[e];
    }
}

// The same as `sum_entries`, of values that are given in a slice of their own.
pub fn sum_given(
    w: &[u32],
    given: &[f64],
    f: &mut [f64],
    m: usize,
    positions: usize,
    total: usize,
    out: usize,
)
    requires { GivenOk w.now (length f.old) (length given.now) m positions total out }
    ensures { Wrote out total
        (sums_of total m (part positions m w.now) given.now)
        f.old f.new }
{
    fill(f, out, total, 0.0);
    add_given(w, given, f, m, positions, total, out);
}
