// The index check of question 19, which solve, update and statistics make before they read a store.
ghost use Rattle.std.specs.Prelude.{◌≡◌};
ghost use Rattle.index_check.specs.Sound.{stopped_at, heads_walked, levels_walked, walk_of, controls_sound, empty_sound, handle_sound, filled_sound, sound_of};
ghost use Rattle.index_check.specs.CheckContract.{HeadsOk, SizesOk, sizes_asked};

use crate::sound::Stop;
use crate::{head, row, sound, tables};
use options::Handle;

// The walk ended at this row of this level.
fn stopped(level: u64, row: usize) -> Result<(), Stop>
    ensures { result ≡ stopped_at level row }
{
    Err(Stop {
        level,
        row: row as u64,
    })
}

// The first head that fails ends the walk over the heads.
fn walk_heads(w: &[u32], levels: u64) -> Result<(), Stop>
    ensures { result ≡ heads_walked levels w.now 0 0 }
{
    let mut a = 0;
    for level in 0..levels {
        if !head::head_fits(w, a, levels - level - 1) {
            return stopped(level, 0);
        }
        a = layout::words_end(w, a);
    }
    Ok(())
}

// The first entry that fails ends the walk over levels and rows. The rows of a level are asked one by one only where its tables, asked
// all at once, fail; where each row passes, what fails belongs to none.
fn walk_rows(w: &[u32], levels: u64) -> Result<(), Stop>
    requires { HeadsOk w.now levels }
    ensures { result ≡ levels_walked levels w.now 0 0 }
{
    let mut at = Ok(());
    let mut a = 0;
    'walk: for level in 0..levels {
        let p = layout::place_at(w, a, 0);
        let t = tables::targets_at(w, a, levels - level - 1);
        if !tables::level_sound(w, p, t) {
            for row in 0..p.rows {
                if !row::row_sound(w, p, t, row) {
                    at = stopped(level, row);
                    break 'walk;
                }
            }
            at = stopped(level, 0);
            break 'walk;
        }
        a = layout::words_end(w, a);
    }
    at
}

// The heads, against which links and positions are asked, and then the rows.
fn walk(w: &[u32], levels: u64) -> Result<(), Stop>
    ensures { result ≡ walk_of levels w.now 0 0 }
{
    walk_heads(w, levels)?;
    walk_rows(w, levels)
}

// The controls of the handle pass questions 6 and 7.
fn controls_sound(h: Handle) -> bool
    ensures { result ≡ controls_sound h }
{
    !refusal::refused(options::check_controls(h.options))
}

// They do, and it has no level, no row and no entry.
fn empty_sound(h: Handle) -> bool
    ensures { result ≡ empty_sound h }
{
    controls_sound(h) & (h.levels == 0) & (h.rows == 0) & (h.entries == 0)
}

// They do, and it has a row and a level.
fn handle_sound(h: Handle) -> bool
    ensures { result ≡ handle_sound h }
{
    controls_sound(h) & (1 <= h.rows) & (1 <= h.levels) & (h.levels <= h.options.max_levels)
}

// The finest level is that of the handle, and the scratch of a solve ends in the floats.
fn sizes_sound(h: Handle, w: &[u32], floats: usize) -> bool
    requires { SizesOk h w.now }
    ensures { result ≡ sizes_asked h w.now floats }
{
    let p = layout::place_at(w, 0, 0);
    let start = sound::cycle_start(w, h.levels, h.options.krylov_dimension);
    (p.rows as u64 == h.rows)
        & (p.entries as u64 == h.entries)
        & (sound::scratch_end(w, h.levels, start) <= floats)
}

// Question 19 of a handle with levels.
fn filled_sound(h: Handle, w: &[u32], floats: usize, records: usize) -> bool
    ensures { result ≡ filled_sound h w.now floats records }
{
    if !handle_sound(h) {
        return false;
    }
    if (records as u64) < h.levels {
        return false;
    }
    match walk(w, h.levels) {
        Ok(()) => sizes_sound(h, w, floats),
        Err(_) => false,
    }
}

// Question 19, of a handle and stores that anybody may have written. Of a matrix of no rows nothing is walked.
pub fn check(h: Handle, w: &[u32], floats: usize, records: usize) -> bool
    ensures { result ≡ sound_of h w.now floats records }
{
    if empty_sound(h) {
        return true;
    }
    filled_sound(h, w, floats, records)
}
