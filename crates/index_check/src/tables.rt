// The tables of a level all at once: whether any of its rows fails, which the walk asks before it goes row by row. `LevelOk` stands in each contract: that
// the tables lie in the words is a fact of their length, a place and its targets, none of which holds the others.
ghost use Rattle.std.specs.Prelude.{◌≡◌, ◌&&◌, ◌+◌, ◌≤◌, length};
ghost use Rattle.store.specs.Region.{part};
ghost use Rattle.store.specs.Vector.{each};
ghost use Rattle.index_check.specs.Sound.{all_below, arrays_sound, level_sound};
ghost use Rattle.index_check.specs.LevelContract.{TargetsOk, targets_at, LevelOk, BelowOk, faces_below, rise_at, rows_placed, shape_to};

use crate::sound;
use layout::Place;

// What the links and positions of a level are asked against: whether it is the last, how many links it has, and the rows and entries
// that they lead to. `last` stands beside them and `entries` is 0 there, no Option: `arrays_sound` and `shape_at` take a number, and `links` counts on each level.
#[derive(Clone, Copy)]
pub struct Targets {
    pub last: bool,
    pub links: usize,
    pub rows: usize,
    pub entries: usize,
}

// Those of the level at a, after which so many come. The last one's links are its coupled rows, and it has no positions.
pub fn targets_at(w: &[u32], a: usize, more: u64) -> Targets
    requires { TargetsOk w.now a more }
    ensures { result ≡ targets_at more w.now a }
{
    let rows = sound::word_at(w, a);
    if more == 0 {
        return Targets {
            last: true,
            links: sound::coupled_at(w, a),
            rows,
            entries: 0,
        };
    }
    let next = layout::place_at(w, layout::words_end(w, a), 0);
    Targets {
        last: false,
        links: rows,
        rows: next.rows,
        entries: next.entries,
    }
}

// Whether the n numbers at `from` are below the bound. No branch leaves the loop, so that it takes several numbers at once.
pub fn below(w: &[u32], from: usize, n: usize, bound: usize) -> bool
    requires { BelowOk (length w.now) from n bound }
    ensures { result ≡ all_below bound (part from n w.now) }
{
    let limit = bound as u32;
    let mut ok = true;
    for k in 0..n {
        ok &= w[from + k] < limit;
    }
    ok
}

// Whether the n numbers at `first` are below `low` and the n at `second` below `high`. One loop takes several numbers of both at
// once: two streams come from memory side by side, and no branch leaves it.
fn two_below(w: &[u32], first: usize, second: usize, n: usize, low: usize, high: usize) -> bool
    requires below_ok { BelowOk (length w.now) first n low }
    requires below_ok_2 { BelowOk (length w.now) second n high }
    ensures { result ≡ (all_below low (part first n w.now) && all_below high (part second n w.now)) }
{
    let lower = low as u32;
    let upper = high as u32;
    let mut ok = true;
    for k in 0..n {
        ok &= (w[first + k] < lower) & (w[second + k] < upper);
    }
    ok
}

// Each face's column is a row, and each face stands for two entries: neighbours, uppers and lowers come from memory side by side, and
// no branch leaves the loop.
fn faces_below(w: &[u32], p: Place, t: Targets) -> bool
    requires { LevelOk (length w.now) p t }
    ensures { result ≡ faces_below w.now p }
{
    let rows = p.rows as u32;
    let entries = p.entries as u32;
    let n = p.faces;
    let mut ok = true;
    for k in 0..n {
        ok &= (w[p.neighbors + k] < rows)
            & (w[p.uppers + k] < entries)
            & (w[p.lowers + k] < entries);
    }
    ok
}

// All tables of a level but those of its rows. Columns and positions are as many, so they are asked together.
fn tables_sound(w: &[u32], p: Place, t: Targets) -> bool
    requires { LevelOk (length w.now) p t }
    ensures { result ≡ arrays_sound t.rows t.entries (shape_to w.now p t) }
{
    if !faces_below(w, p, t) {
        return false;
    }
    if !below(w, p.links, t.links, t.rows) {
        return false;
    }
    if t.last {
        return below(w, p.columns, p.entries, p.rows);
    }
    two_below(w, p.columns, p.positions, p.entries, p.rows, t.entries)
}

// Whether none of the n numbers after the one at `first` is below the one before it, and none of the n after the one at `second`.
// Both come from memory side by side, and no branch leaves the loop.
fn two_rise(w: &[u32], first: usize, second: usize, n: usize) -> bool
    requires n_in_bounds { first + n + 1 ≤ length w.now }
    requires n_in_bounds_2 { second + n + 1 ≤ length w.now }
    ensures { result ≡ (each (rise_at w.now first) n && each (rise_at w.now second) n) }
{
    let mut ok = true;
    for k in 0..n {
        ok &= (w[first + k] <= w[first + k + 1]) & (w[second + k] <= w[second + k + 1]);
    }
    ok
}

// The offsets, starts and diagonals of all rows of a level.
fn rows_placed(w: &[u32], p: Place, t: Targets) -> bool
    requires { LevelOk (length w.now) p t }
    ensures { result ≡ rows_placed (shape_to w.now p t) }
{
    let rise = two_rise(w, p.offsets, p.starts, p.rows);
    rise & below(w, p.diagonals, p.rows, p.entries)
}

// Whether all of a level is sound. Each test goes over a whole table by itself, so that it takes several numbers at once.
pub fn level_sound(w: &[u32], p: Place, t: Targets) -> bool
    requires { LevelOk (length w.now) p t }
    ensures { result ≡ level_sound t.rows t.entries (shape_to w.now p t) }
{
    if !tables_sound(w, p, t) {
        return false;
    }
    rows_placed(w, p, t)
}
