// The columns of each coarse row (`galerkin` of aggregation.rs), not yet in order: `gather` walks over the entries of each
// aggregate's rows and puts each column that is new in a coarse row into the next slot.
ghost use Rattle.std.specs.Prelude.{◌+◌, length};
ghost use Rattle.pattern.specs.Steps.{Linked, GatheringAt, Gathered, SlotOk, Slotted, MeetOk, EntriesOk, RowOk};

use crate::pattern::Coarsening;
use store::{fill, index_at, wide};

// b in slot r, if it is one of the m slots.
fn fill_slot(w: &mut [u32], slots: usize, m: usize, r: usize, b: usize)
    requires { SlotOk (length w.old) slots m b }
    ensures { Slotted w.old w.new slots m r b }
{
    if r < m {
        w[slots + r] = b as u32;
    }
}

// Entry e, of a row of aggregate a: the aggregate of its column, if coarse row a has not met it, goes into slot r. It is written there in
// any case, since whether it is new is hard to foretell, and then no branch depends on it: what stands behind the slots that are
// counted says nothing.
fn meet(w: &mut [u32], c: Coarsening, a: usize, e: usize, r: usize) -> usize
    requires { MeetOk w.old c a e r }
    ensures { Gathered w.old w.new c a (e + 1) result }
{
    let marks = c.scratch + c.count + c.rows;
    let j = index_at(w, c.columns, e, c.rows);
    let b = index_at(w, c.map, j, c.count);
    let stamp = (a + 1) as u32;
    let last = w[marks + b];
    w[marks + b] = stamp;
    fill_slot(w, c.positions, c.entries, r, b);
    if last == stamp { r } else { r + 1 }
}

// The entries from lo to hi, those of a row of aggregate a.
fn gather_entries(w: &mut [u32], c: Coarsening, a: usize, lo: usize, hi: usize, r: usize) -> usize
    requires { EntriesOk w.old c a lo hi r }
    ensures { Gathered w.old w.new c a hi result }
{
    let mut found = r;
    for e in lo..hi {
        found = meet(w, c, a, e, found);
    }
    found
}

// Coarse row a: the fine rows of the aggregate, along its chain.
fn gather_row(w: &mut [u32], c: Coarsening, a: usize, r: usize) -> usize
    requires { RowOk w.old c a r }
    ensures { Gathered w.old w.new c a c.entries result }
{
    let rows = c.rows;
    let offsets = c.offsets;
    let heads = c.scratch;
    let nexts = c.scratch + c.count;
    let mut found = r;
    let mut i = wide(w[heads + a]);
    // A while: the next row of a chain stands in the store, so no range has them.
    while i < rows {
        let lo = wide(w[offsets + i]);
        let hi = wide(w[offsets + i + 1]);
        found = gather_entries(w, c, a, lo, hi, found);
        i = wide(w[nexts + i]);
    }
    found
}

// All coarse rows: their slots, and where each row starts.
fn gather_rows(w: &mut [u32], c: Coarsening) -> usize
    requires { GatheringAt w.old c 0 0 0 }
    ensures { Gathered w.old w.new c c.count 0 result }
{
    let starts = c.coarse_offsets;
    let mut found = 0;
    for a in 0..c.count {
        found = gather_row(w, c, a, found);
        w[starts + a + 1] = found as u32;
    }
    found
}

// The same, after no column has been met; the number of coarse entries.
pub fn gather(w: &mut [u32], c: Coarsening) -> usize
    requires { Linked w.old c 0 }
    ensures { Gathered w.old w.new c c.count 0 result }
{
    let starts = c.coarse_offsets;
    fill(w, c.scratch + c.count + c.rows, c.count, 0);
    w[starts] = 0;
    gather_rows(w, c)
}
