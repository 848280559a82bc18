// What is asked of a record before it is written.
ghost use Rattle.std.specs.Prelude.{◌≡◌, ◌&&◌, leb, ◌+◌, ◌<◌};
ghost use Rattle.refusal.specs.Outcome.{verdict_of};
ghost use Rattle.csr.specs.Questions.{never_fall, offsets_ok, entry_ok, row_ok, columns_ok};
ghost use Rattle.matrix_writer.specs.Writing.{record_ok, writable, mirror_in, entry_asked, row_asked, entries_asked, record_asked};
ghost use Rattle.matrix_writer.specs.Contract.{Span, StandsIn, Rises, Sound, LowerBound};
ghost use Rattle.matrix_writer.specs.Sized.{matrix_in};

use crate::arrays::{Arrays, RowRange, Source, size_at};
use record_format::{Mark, is_marked};
use refusal::Refusal;

// Whether bytes are an MX record. The sizes are below 2^32 each, so the length that they ask for does not wrap.
fn is_record(b: &[u8]) -> bool
    ensures { result ≡ record_ok b.now }
{
    let rows = size_at(b, 2);
    let entries = size_at(b, 6);
    is_marked(b, Mark::Matrix) & (b.len() == 14 + 4 * rows + 12 * entries)
}

// Question 1.
fn sizes_fit(rows: usize, entries: usize) -> bool
    ensures { result ≡ (leb rows 65536 && leb entries 1048576) }
{
    (rows <= 65536) & (entries <= 1048576)
}

// Whether no row ends before it starts.
fn never_fall(arrays: &Arrays) -> bool
    ensures { result ≡ never_fall arrays.now.rows (matrix_in arrays.now).offsets }
{
    for row in 0..arrays.rows {
        let first = arrays.offset_at(row);
        let last = arrays.offset_at(row + 1);
        if first > last {
            return false;
        }
    }
    true
}

// Question 2.
fn offsets_fit(arrays: &Arrays) -> bool
    ensures { result ≡ offsets_ok arrays.now.rows (matrix_in arrays.now).offsets (matrix_in arrays.now).columns (matrix_in arrays.now).values }
{
    let start = arrays.offset_at(0);
    let end = arrays.offset_at(arrays.rows);
    (start == 0) & never_fall(arrays) & (end == arrays.entries)
}

// The test of an entry in a row that ends at `last`.
fn entry_fits(arrays: &Arrays, last: usize, e: usize) -> bool
    requires { Span arrays.now.entries (e + 1) last }
    ensures { result ≡ entry_ok arrays.now.rows (matrix_in arrays.now).columns last e }
{
    let column = arrays.column_at(e);
    let below = column < arrays.rows;
    if last <= e + 1 {
        return below;
    }
    let next = arrays.column_at(e + 1);
    below & (column < next)
}

// The entries of one row.
fn row_rises(arrays: &Arrays, first: usize, last: usize) -> bool
    requires { Span arrays.now.entries first last }
    ensures { result ≡ row_ok arrays.now.rows (matrix_in arrays.now).columns first last }
{
    (first..last).all(|e| entry_fits(arrays, last, e))
}

// Question 3.
fn columns_rise(source: &Source) -> bool
    ensures { result ≡ columns_ok source.now.arrays.rows (matrix_in source.now.arrays).offsets (matrix_in source.now.arrays).columns }
{
    for row in 0..source.arrays.rows {
        let RowRange { first, last } = source.range_at(row);
        if !row_rises(&source.arrays, first, last) {
            return false;
        }
    }
    true
}

// Whether a number of at most 15 digits and with a power of ten from -22 to 22 gives a value.
fn is_writable(v: f64) -> bool
    ensures { result ≡ writable v }
{
    decimal::write(decimal::magnitude(v)).is_some()
}

// The first of the rising columns from `first` to `last` that is not below `column`: by bisection.
fn lower_bound(arrays: &Arrays, first: usize, last: usize, column: usize) -> usize
    requires span { Span arrays.now.entries first last }
    requires rises { Rises (matrix_in arrays.now).columns first last }
    ensures { LowerBound (matrix_in arrays.now).columns first last column result }
{
    let mut low = first;
    let mut high = last;
    // A while: the entries that are left are halved each time, so there is no range to walk.
    while low < high {
        let middle = low + (high - low) / 2;
        let here = arrays.column_at(middle);
        if here < column {
            low = middle + 1;
        } else {
            high = middle;
        }
    }
    low
}

// That question 3 has passed too (`Sound`) is asked for by the next four functions alone, which ask 39 and 40; a third type round the
// other two, for these four, would be no plainer.

// Whether the row of an entry's column has its mirror: the entry in column `row`, equal as a number.
fn has_mirror(source: &Source, row: usize, column: usize, e: usize) -> bool
    requires sound { Sound (matrix_in source.now.arrays) }
    requires column_lt_rows { (column < source.now.arrays.rows) × (e < source.now.arrays.entries) }
    ensures { result ≡ mirror_in (matrix_in source.now.arrays) row e column }
{
    let RowRange { first, last } = source.range_at(column);
    let d = lower_bound(&source.arrays, first, last, row);
    if last <= d {
        return false;
    }
    let other = source.arrays.column_at(d);
    if other != row {
        return false;
    }
    let mirror = source.arrays.value_at(d);
    let value = source.arrays.value_at(e);
    mirror == value
}

// What is asked of entry e, which stands in that row: 39 before 40.
fn entry_verdict(source: &Source, row: usize, e: usize) -> Result<(), Refusal>
    requires sound { Sound (matrix_in source.now.arrays) }
    requires stands_in { StandsIn (matrix_in source.now.arrays) row e }
    ensures { result ≡ verdict_of (entry_asked source.now.symmetric (matrix_in source.now.arrays) row e) }
{
    let value = source.arrays.value_at(e);
    if !is_writable(value) {
        return Err(refusal::BAD_NUMBER);
    }
    if !source.symmetric {
        return Ok(());
    }
    let column = source.arrays.column_at(e);
    if has_mirror(source, row, column, e) {
        Ok(())
    } else {
        Err(refusal::UNEQUAL_MIRRORS)
    }
}

// What is asked of the entries of a row.
fn row_verdict(source: &Source, row: usize) -> Result<(), Refusal>
    requires sound { Sound (matrix_in source.now.arrays) }
    requires row_lt_rows { row < source.now.arrays.rows }
    ensures { result ≡ verdict_of (row_asked source.now.symmetric (matrix_in source.now.arrays) row) }
{
    let RowRange { first, last } = source.range_at(row);
    for e in first..last {
        entry_verdict(source, row, e)?;
    }
    Ok(())
}

// What is asked of all entries, by row and then by column.
fn entries_verdict(source: &Source) -> Result<(), Refusal>
    requires { Sound (matrix_in source.now.arrays) }
    ensures { result ≡ verdict_of (entries_asked source.now.symmetric (matrix_in source.now.arrays)) }
{
    for row in 0..source.arrays.rows {
        row_verdict(source, row)?;
    }
    Ok(())
}

// What is asked of a record: 32, 1, 2, 3, and then 39 and 40 entry by entry.
pub fn check_record(symmetric: bool, b: &[u8]) -> Result<(), Refusal>
    ensures { result ≡ verdict_of (record_asked symmetric b.now) }
{
    if !is_record(b) {
        return Err(record_format::BAD_RECORD);
    }
    let rows = size_at(b, 2);
    let entries = size_at(b, 6);
    if !sizes_fit(rows, entries) {
        return Err(refusal::TOO_LARGE);
    }
    let arrays = Arrays {
        bytes: b,
        rows,
        entries,
    };
    if !offsets_fit(&arrays) {
        return Err(refusal::BAD_OFFSETS);
    }
    let source = Source { arrays, symmetric };
    if !columns_rise(&source) {
        return Err(refusal::BAD_COLUMNS);
    }
    entries_verdict(&source)
}
