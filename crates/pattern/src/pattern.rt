// The chains of the fine rows of each aggregate, along which the pattern of the Galerkin product is found (`galerkin` of
// aggregation.rs), and the map of merged steps.
ghost use Rattle.store.specs.Region.{part, Wrote};
ghost use Rattle.pattern.specs.Pattern.{compose_of};
ghost use Rattle.pattern.specs.Coarsening.{PatternOk, ComposeOk};
ghost use Rattle.pattern.specs.Steps.{Linked, Links};

use store::{fill, index_at};

// Where everything stands in the store of words, and the sizes: what is read, then what is written, one after the other.
#[derive(Clone, Copy)]
pub struct Coarsening {
    pub rows: usize,
    pub entries: usize,
    pub count: usize,
    pub offsets: usize,
    pub columns: usize,
    pub map: usize,
    pub positions: usize,
    pub coarse_offsets: usize,
    pub coarse_columns: usize,
    pub scratch: usize,
}

// Each fine row, downward, goes in front of its aggregate's chain; all chains are empty before.
fn link(w: &mut [u32], c: Coarsening)
    requires { Linked w.old c c.rows }
    ensures { Links w.old w.new c 0 }
{
    let heads = c.scratch;
    let nexts = c.scratch + c.count;
    for i in (0..c.rows).rev() {
        let a = index_at(w, c.map, i, c.count);
        w[nexts + i] = w[heads + a];
        w[heads + a] = i as u32;
    }
}

// The fine rows of each aggregate as a chain, upward; past its end stands the number of rows.
pub fn chain(w: &mut [u32], c: Coarsening)
    requires { PatternOk w.old c }
    ensures { Links w.old w.new c 0 }
{
    fill(w, c.scratch, c.count, c.rows as u32);
    link(w, c);
}

// Merged steps: each row's aggregate becomes that aggregate's own, `*aggregate = next_map[*aggregate]`.
pub fn compose(w: &mut [u32], n: usize, map: usize, next: usize, count: usize)
    requires { ComposeOk w.old n map next count }
    ensures { Wrote map n (compose_of n (part map n w.old) (part next count w.old))
        w.old w.new }
{
    for i in 0..n {
        let a = index_at(w, map, i, count);
        w[map + i] = w[next + a];
    }
}
