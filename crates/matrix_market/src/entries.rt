// One entry of a file: its places and its value.
ghost use Rattle.std.specs.Prelude.{◌≡◌, ◌<◌, ◌^◌};
ghost use Rattle.matrix_market.specs.Entries.{found_place, entry_in};
ghost use Rattle.matrix_market.specs.Told.{told_of};

use crate::placed;
use crate::placed::PlacedError;
use decimal_text::field::number_in;

// Why a line is no entry: it has not three fields or a bad place; or its value is outside the form.
#[derive(Clone, Copy, Debug, PartialEq, Eq)]
pub enum EntryError {
    Malformed,
    BadValue,
}

impl From<PlacedError> for EntryError {
    ghost from_gives = { λ p e. e ≡ told_of p };

    fn from(error: PlacedError) -> EntryError {
        match error {
            PlacedError::Malformed => EntryError::Malformed,
            PlacedError::BadValue(..) => EntryError::BadValue,
        }
    }
}

// A place from 1 to `rows`, if the field is one.
pub fn place_in(s: &[u8], rows: u64) -> Option<u64>
    requires { rows < 10 ^ 19 }
    ensures { result ≡ found_place rows s.now }
{
    let n = number_in(s)?;
    if 0 < n && n <= rows { Some(n) } else { None }
}

// The entry of a line: its row and its column, from 0, and its value.
pub fn entry_in(symmetric: bool, rows: u64, line: &[u8]) -> Result<(u64, u64, f64), EntryError>
    requires { rows < 10 ^ 19 }
    ensures { result ≡ entry_in symmetric rows line.now }
{
    let entry = placed::entry_in(symmetric, rows, line)?;
    Ok(entry)
}
