// FW and UP: a float for each entry of the matrix. How many there are, bytes do not say, but the matrix before them; the array that is lent
// has room for the most.
ghost use Rattle.std.specs.Prelude.{◌≡◌};
ghost use Rattle.record_format.specs.Format.{values_ok, read_values};
ghost use Rattle.record_format.specs.Answers.{ValuesAre};

use crate::bytes::read_floats;
use crate::marks::{Mark, is_marked};
use refusal::Refusal;

// Whether bytes are a record of that mark for so many entries.
fn values_ok(b: &[u8], mark: Mark, entries: usize) -> bool
    ensures { result ≡ values_ok mark entries b.now }
{
    if entries <= 320 {
        is_marked(b, mark) & (b.len() == 2 + 8 * entries)
    } else {
        false
    }
}

// The weights of an FW record or the values of an UP record, to the start of a slice.
pub fn read_values(
    b: &[u8],
    mark: Mark,
    entries: usize,
    values: &mut [f64; 320],
) -> Result<(), Refusal>
    ensures { ValuesAre (read_values mark entries b.now) values.old values.new result }
{
    if values_ok(b, mark, entries) {
        read_floats(b, 2, entries, values);
        Ok(())
    } else {
        Err(crate::BAD_RECORD)
    }
}
