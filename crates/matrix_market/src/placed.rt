// One entry of a file, with its places also where its value is outside the form.
// The rows are a number below 10^19, which is what a longer digit string is read as, and no type of their own: `entry_in` and `place_in` are
// called with the number that a file states, so that each call would make the type.
ghost use Rattle.std.specs.Prelude.{◌≡◌, ◌<◌, ◌^◌};
ghost use Rattle.matrix_market.specs.Placed.{placed_of, placed_in};

use crate::entries::place_in;
use crate::lines::three_fields;
use decimal_text::field::value_in;

// Why a line is no entry: it has not three fields or a bad place; or its value is outside the form, and only its row and column, from 0, are known.
#[derive(Clone, Copy, Debug, PartialEq, Eq)]
pub enum PlacedError {
    Malformed,
    BadValue(u64, u64),
}

// An entry from its three fields, which stand apart in the line: its row and its column, from 0, and its value.
fn entry_of(
    symmetric: bool,
    rows: u64,
    a: &[u8],
    b: &[u8],
    c: &[u8],
) -> Result<(u64, u64, f64), PlacedError>
    requires { rows < 10 ^ 19 }
    ensures { result ≡ placed_of symmetric rows a.now b.now c.now }
{
    let row = place_in(a, rows).ok_or(PlacedError::Malformed)?;
    let column = place_in(b, rows).ok_or(PlacedError::Malformed)?;
    if symmetric & (row < column) {
        return Err(PlacedError::Malformed);
    }
    let value = value_in(c).ok_or(PlacedError::BadValue(row - 1, column - 1))?;
    Ok((row - 1, column - 1, value))
}

// The entry of a line.
pub fn entry_in(symmetric: bool, rows: u64, line: &[u8]) -> Result<(u64, u64, f64), PlacedError>
    requires { rows < 10 ^ 19 }
    ensures { result ≡ placed_in symmetric rows line.now }
{
    let Some((first, second, third)) = three_fields(line) else {
        return Err(PlacedError::Malformed);
    };
    entry_of(
        symmetric,
        rows,
        &line[first.from..first.to],
        &line[second.from..second.to],
        &line[third.from..third.to],
    )
}
