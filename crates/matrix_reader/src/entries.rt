// The entries of a file, one line after the other, and their mirrors.
// Rows, columns and values stand in three slices, as C lends them; a struct of the three would be taken apart again by `file::convert`, which
// gives the sort rows and columns, and the record columns and values.
ghost use Rattle.std.specs.Prelude.{◌≡◌};
ghost use Rattle.matrix_market.specs.Placed.{placed_in};
ghost use Rattle.matrix_reader.specs.Steps.{PlaceFor, EntryPut, LineOk, LineStored, LinesOk, LinesAre, MirrorRoom, MirrorPut, MirrorsRoom, MirrorsPut};

use crate::head::Head;
use matrix_market::entries::EntryError;
use matrix_market::lines::next_line;
use matrix_market::placed::{PlacedError, entry_in};

// What is wrong with the lines of a file: behind some entries a line is malformed or surplus; or, behind so many, one has a bad value.
#[derive(Clone, Copy, Debug, PartialEq, Eq)]
pub enum LinesError {
    Malformed,
    BadValue(usize),
}

// An entry, stored at m.
fn put_entry(
    rows: &mut [u32],
    columns: &mut [u32],
    values: &mut [f64],
    m: usize,
    row: u32,
    column: u32,
    value: f64,
)
    requires { PlaceFor m rows.old columns.old values.old }
    ensures { EntryPut m (record { row = row; column = column; value = value }) rows.old columns.old values.old rows.new columns.new values.new }
{
    rows[m] = row;
    columns[m] = column;
    values[m] = value;
}

// The entry of a line, stored at m; where only its places are known, these are stored with a value of zero.
fn read_line(
    line: &[u8],
    symmetric: bool,
    n: u64,
    m: usize,
    rows: &mut [u32],
    columns: &mut [u32],
    values: &mut [f64],
) -> Result<(), EntryError>
    requires { LineOk n m rows.old columns.old values.old }
    ensures { LineStored (placed_in symmetric n line.now) m rows.old columns.old values.old rows.new columns.new values.new result }
{
    match entry_in(symmetric, n, line) {
        Err(PlacedError::Malformed) => Err(EntryError::Malformed),
        Err(PlacedError::BadValue(row, column)) => {
            put_entry(rows, columns, values, m, row as u32, column as u32, 0.0);
            Err(EntryError::BadValue)
        }
        Ok((row, column, value)) => {
            put_entry(rows, columns, values, m, row as u32, column as u32, value);
            Ok(())
        }
    }
}

// The entries of the lines behind the size line, until the last line or the first that is no entry; answers how many there are.
pub fn read_lines(
    text: &[u8],
    h: Head,
    rows: &mut [u32],
    columns: &mut [u32],
    values: &mut [f64],
) -> Result<usize, LinesError>
    requires { LinesOk text.now h rows.old columns.old values.old }
    ensures { LinesAre text.now h rows.new columns.new values.new result }
{
    let symmetric = h.symmetric;
    let n = h.rows;
    let stated = h.entries as usize;
    let mut at = h.next;
    let mut m = 0;
    // A while: where the next line starts is known once this one has been read.
    while let Some(line) = next_line(text, at) {
        if m >= stated {
            return Err(LinesError::Malformed);
        }
        let s = read_line(
            &text[line.from..line.to],
            symmetric,
            n,
            m,
            rows,
            columns,
            values,
        );
        match s {
            Err(EntryError::Malformed) => return Err(LinesError::Malformed),
            Err(EntryError::BadValue) => return Err(LinesError::BadValue(m)),
            Ok(()) => {
                m += 1;
                at = line.next;
            }
        }
    }
    Ok(m)
}

// The mirror of entry k, stored behind `total` entries, if it is off the diagonal; answers how many there are then.
fn put_mirror(
    k: usize,
    total: usize,
    rows: &mut [u32],
    columns: &mut [u32],
    values: &mut [f64],
) -> usize
    requires { MirrorRoom k total rows.old columns.old values.old }
    ensures { MirrorPut k total rows.old columns.old values.old rows.new columns.new values.new result }
{
    let row = rows[k];
    let column = columns[k];
    let value = values[k];
    if row == column {
        return total;
    }
    put_entry(rows, columns, values, total, column, row, value);
    total + 1
}

// The mirrors of m entries, stored behind them; answers how many entries there are then.
pub fn put_mirrors(m: usize, rows: &mut [u32], columns: &mut [u32], values: &mut [f64]) -> usize
    requires { MirrorsRoom m rows.old columns.old values.old }
    ensures { MirrorsPut m rows.old columns.old values.old rows.new columns.new values.new result }
{
    let mut total = m;
    for k in 0..m {
        total = put_mirror(k, total, rows, columns, values);
    }
    total
}
