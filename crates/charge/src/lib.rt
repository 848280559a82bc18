// What question 9 asks for so many levels of a matrix, each counted as large as the finest.
#![tactic(auto)]

ghost use Rattle.std.specs.Prelude.{◌+◌, ◌*◌, ◌≡◌};
ghost use Rattle.charge.specs.Charge.{capped, words_for, floats_for, sizes_for};

use float::{saturating_add, saturating_mul};
use options::MultigridOptions;

// Elements of the stores: u32 words, f64 floats, records of statistics.
#[repr(C)]
#[derive(Clone, Copy)]
pub struct StoreSizes {
    pub words: u64,
    pub floats: u64,
    pub statistics: u64,
}

// So much for each row, for each entry, and besides.
fn priced(by_row: u64, rows: u64, by_entry: u64, entries: u64, besides: u64) -> u64
    ensures { result ≡ capped (by_row * rows + by_entry * entries + besides) }
{
    let of_rows = saturating_mul(by_row, rows);
    let of_entries = saturating_mul(by_entry, entries);
    saturating_add(saturating_add(of_rows, of_entries), besides)
}

// A fixed charge, and that of so many levels.
fn with_levels(fixed: u64, levels: u64, level: u64) -> u64
    ensures { result ≡ capped (fixed + levels * level) }
{
    saturating_add(fixed, saturating_mul(levels, level))
}

// The words of so many levels.
fn words_for(rows: u64, entries: u64, levels: u64) -> u64
    ensures { result ≡ capped (words_for rows entries levels) }
{
    let fixed = priced(16, rows, 12, entries, 64);
    let level = priced(5, rows, 4, entries, 8);
    with_levels(fixed, levels, level)
}

// The floats of so many levels.
fn floats_for(options: MultigridOptions, rows: u64, entries: u64, levels: u64) -> u64
    ensures { result ≡ capped (floats_for options rows entries levels) }
{
    let vectors = saturating_add(12, saturating_mul(2, options.krylov_dimension));
    let factor = saturating_mul(options.coarsest_cells, options.coarsest_cells);
    let fixed = priced(vectors, rows, 8, entries, factor);
    let level = priced(20, rows, 4, entries, 0);
    with_levels(fixed, levels, level)
}

// The sizes of stores for so many levels; a sum that does not fit is the largest u64.
pub fn store_sizes(rows: u64, entries: u64, options: MultigridOptions, levels: u64) -> StoreSizes
    ensures { result ≡ sizes_for options rows entries levels }
{
    StoreSizes {
        words: words_for(rows, entries, levels),
        floats: floats_for(options, rows, entries, levels),
        statistics: options.max_levels,
    }
}
