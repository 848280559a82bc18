// The text of a file, line by line, into a lent slice; what goes past its end is counted and not written.
// The output and the place go in and the next place comes out, as in `decimal_text::figures`, whose functions do the writing. A piece may start
// at a place up to the bound of its function, so that no sum wraps: the bounds differ from piece to piece, and are no type.
ghost use Rattle.std.specs.Prelude.{◌≡◌, ◌+◌, ◌≤◌, ◌<◌, length};
ghost use Rattle.store.specs.Vector.{filled};
ghost use Rattle.decimal_text.specs.Contract.{Laid};
ghost use Rattle.decimal_text.specs.Figures.{figures, value_text};
ghost use Rattle.record_format.specs.Bytes.{flat};
ghost use Rattle.matrix_writer.specs.Text.{kind_text, spaced, size_line, entry_line, is_written, written_at, row_triplets, triplets, file_text};
ghost use Rattle.matrix_writer.specs.Sized.{matrix_in};

use crate::arrays::{RowRange, Source};
use decimal_text::figures::{put_byte, put_number, put_value};

// Every byte zero. The reader has the same: neither crate stands on the other.
pub fn zero_bytes(out: &mut [u8])
    ensures { out.new ≡ filled (length out.old) 0 }
{
    let n = out.len();
    store::fill(out, 0, n, 0);
}

// Bytes as they are.
fn put_bytes(out: &mut [u8], at: usize, text: &[u8]) -> usize
    requires { (at ≤ 1000000) × (length text.now ≤ 1000000) }
    ensures { Laid text.now at out.old out.new result }
{
    let mut next = at;
    for &byte in text {
        next = put_byte(out, next, byte);
    }
    next
}

// The rest of the header.
fn put_kind(symmetric: bool, out: &mut [u8], at: usize) -> usize
    requires { at ≤ 1000000 }
    ensures { Laid (kind_text symmetric) at out.old out.new result }
{
    if symmetric {
        return put_bytes(out, at, b"symmetric\n");
    }
    put_bytes(out, at, b"general\n")
}

// A number and a space.
fn put_spaced(out: &mut [u8], at: usize, n: usize) -> usize
    requires { at ≤ 2000000000 }
    ensures { Laid (spaced n) at out.old out.new result }
{
    let next = put_number(out, at, n as u64);
    put_byte(out, next, b' ')
}

// The size line.
fn put_size(out: &mut [u8], at: usize, rows: usize, count: usize) -> usize
    requires { at ≤ 1000000 }
    ensures { Laid (size_line rows count) at out.old out.new result }
{
    let second = put_spaced(out, at, rows);
    let third = put_spaced(out, second, rows);
    let end = put_number(out, third, count as u64);
    put_byte(out, end, b'\n')
}

// A value; nothing where it cannot be written, which question 39 has ruled out.
fn put_float(out: &mut [u8], at: usize, v: f64) -> usize
    requires { at ≤ 2000000000 }
    ensures { Laid (value_text v) at out.old out.new result }
{
    put_value(out, at, v).unwrap_or(at)
}

// The line of an entry; its row and column are counted from 0 here and from 1 in the file.
fn put_entry(out: &mut [u8], at: usize, row: usize, column: usize, v: f64) -> usize
    requires at_bound { at ≤ 1000000000 }
    requires row_bound { (row < 4294967296) × (column < 4294967296) }
    ensures { Laid (entry_line (record { row = row; column = column; value = v })) at out.old out.new result }
{
    let second = put_spaced(out, at, row + 1);
    let third = put_spaced(out, second, column + 1);
    let end = put_float(out, third, v);
    put_byte(out, end, b'\n')
}

// Whether an entry is written: in a symmetric file only on or below the diagonal.
fn is_written(symmetric: bool, row: usize, column: usize) -> bool
    ensures { result ≡ is_written symmetric row column }
{
    !symmetric | (column <= row)
}

// Entry e of a row, where it is written.
fn put_written(source: &Source, row: usize, e: usize, out: &mut [u8], at: usize) -> usize
    requires { (row < source.now.arrays.rows) × (e < source.now.arrays.entries) × (at ≤ 1000000000) }
    ensures { Laid (flat entry_line (written_at source.now.symmetric (matrix_in source.now.arrays) row e)) at out.old out.new result }
{
    let column = source.arrays.column_at(e);
    if !is_written(source.symmetric, row, column) {
        return at;
    }
    let value = source.arrays.value_at(e);
    put_entry(out, at, row, column, value)
}

// The entries of a row that are written.
fn put_row(source: &Source, row: usize, out: &mut [u8], at: usize) -> usize
    requires { (row < source.now.arrays.rows) × (at ≤ 500000000) }
    ensures { Laid (flat entry_line (row_triplets source.now.symmetric (matrix_in source.now.arrays) row)) at out.old out.new result }
{
    let RowRange { first, last } = source.range_at(row);
    let mut next = at;
    for e in first..last {
        next = put_written(source, row, e, out, next);
    }
    next
}

// All entries that are written, row by row.
fn put_rows(source: &Source, out: &mut [u8], at: usize) -> usize
    requires { at ≤ 1000000 }
    ensures { Laid (flat entry_line (triplets source.now.symmetric (matrix_in source.now.arrays))) at out.old out.new result }
{
    let mut next = at;
    for row in 0..source.arrays.rows {
        next = put_row(source, row, out, next);
    }
    next
}

// 1 where entry e of a row is written, else 0.
fn count_entry(source: &Source, row: usize, e: usize) -> usize
    requires { e < source.now.arrays.entries }
    ensures { result ≡ length (written_at source.now.symmetric (matrix_in source.now.arrays) row e) }
{
    let column = source.arrays.column_at(e);
    usize::from(is_written(source.symmetric, row, column))
}

// How many entries of a row are written. `put_row` and `questions::row_verdict` walk the row too, but lay what this counts and stop at a
// refusal: one walk over a closure would need the invariant of each as an argument.
fn count_row(source: &Source, row: usize) -> usize
    requires { row < source.now.arrays.rows }
    ensures { result ≡ length (row_triplets source.now.symmetric (matrix_in source.now.arrays) row) }
{
    let RowRange { first, last } = source.range_at(row);
    let mut n = 0;
    for e in first..last {
        n += count_entry(source, row, e);
    }
    n
}

// How many entries are written.
fn count_written(source: &Source) -> usize
    ensures { result ≡ length (triplets source.now.symmetric (matrix_in source.now.arrays)) }
{
    let mut n = 0;
    for row in 0..source.arrays.rows {
        n += count_row(source, row);
    }
    n
}

// The whole text; the answer is its length.
pub fn put_file(source: &Source, out: &mut [u8]) -> usize
    ensures { Laid (file_text source.now.symmetric (matrix_in source.now.arrays)) 0 out.old out.new result }
{
    let count = count_written(source);
    let kind = put_bytes(out, 0, b"%%MatrixMarket matrix coordinate real ");
    let size = put_kind(source.symmetric, out, kind);
    let first = put_size(out, size, source.arrays.rows, count);
    put_rows(source, out, first)
}
