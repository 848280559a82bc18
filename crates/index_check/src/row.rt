// One row of a level: where it stands, its entries, its faces and its link. `RowOk` stands in the contracts of the row's tests: it is `LevelOk` and a row
// that the walk has come to, facts of the words' length and three values together.
ghost use Rattle.std.specs.Prelude.{◌≡◌, length};
ghost use Rattle.index_check.specs.Sound.{row_placed, entries_sound, faces_sound, link_sound, row_sound};
ghost use Rattle.index_check.specs.LevelContract.{RowOk, RunOk, shape_to};

use crate::tables::Targets;
use crate::{sound, tables};
use layout::Place;

// Neither the entries of a row nor its faces end before they start, and its diagonal entry is an entry.
fn row_placed(w: &[u32], p: Place, t: Targets, row: usize) -> bool
    requires { RowOk (length w.now) p t row }
    ensures { result ≡ row_placed (shape_to w.now p t) row }
{
    (w[p.offsets + row] <= w[p.offsets + row + 1])
        & (w[p.starts + row] <= w[p.starts + row + 1])
        & (sound::word_at(w, p.diagonals + row) < p.entries)
}

// The entries from one to before another: their columns are rows, and their positions entries of the next level.
fn entries_sound(w: &[u32], p: Place, t: Targets, from: usize, to: usize) -> bool
    requires { RunOk (length w.now) p t from to }
    ensures { result ≡ entries_sound t.entries (shape_to w.now p t) from to }
{
    if p.entries < to {
        return false;
    }
    let n = to - from;
    if !tables::below(w, p.columns + from, n, p.rows) {
        return false;
    }
    if t.last {
        return true;
    }
    tables::below(w, p.positions + from, n, t.entries)
}

// The faces from one to before another: the column of each is a row, and each stands for two entries.
fn faces_sound(w: &[u32], p: Place, t: Targets, from: usize, to: usize) -> bool
    requires { RunOk (length w.now) p t from to }
    ensures { result ≡ faces_sound (shape_to w.now p t) from to }
{
    if p.faces < to {
        return false;
    }
    let n = to - from;
    let neighbors = tables::below(w, p.neighbors + from, n, p.rows);
    let uppers = tables::below(w, p.uppers + from, n, p.entries);
    let lowers = tables::below(w, p.lowers + from, n, p.entries);
    neighbors & uppers & lowers
}

// The link of a row. On the last level only as many rows have one as are coupled.
fn link_sound(w: &[u32], p: Place, t: Targets, row: usize) -> bool
    requires { RowOk (length w.now) p t row }
    ensures { result ≡ link_sound t.rows (shape_to w.now p t) row }
{
    if row < t.links {
        return tables::below(w, p.links + row, 1, t.rows);
    }
    true
}

// A row: where it stands, its entries, its faces and its link.
pub fn row_sound(w: &[u32], p: Place, t: Targets, row: usize) -> bool
    requires { RowOk (length w.now) p t row }
    ensures { result ≡ row_sound t.rows t.entries (shape_to w.now p t) row }
{
    if !row_placed(w, p, t, row) {
        return false;
    }
    let from = sound::word_at(w, p.offsets + row);
    let to = sound::word_at(w, p.offsets + row + 1);
    if !entries_sound(w, p, t, from, to) {
        return false;
    }
    let first = sound::word_at(w, p.starts + row);
    let end = sound::word_at(w, p.starts + row + 1);
    if !faces_sound(w, p, t, first, end) {
        return false;
    }
    link_sound(w, p, t, row)
}
