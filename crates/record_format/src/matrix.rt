// MX: a matrix in compressed rows. Its arrays are lent one by one: there is no heap, so that each has the largest size that a problem file
// allows, and `read_matrix` of docs/PROMISES.md and its clause take them so.
ghost use Rattle.std.specs.Prelude.{◌≡◌};
ghost use Rattle.record_format.specs.Format.{matrix_ok, read_matrix};
ghost use Rattle.record_format.specs.Answers.{MatrixIs};
ghost use Rattle.record_format.specs.Steps.{Sizes, MatrixLaid};

use crate::bytes::{read_floats, read_words, u32_at};
use crate::marks::{Mark, is_marked};
use refusal::Refusal;

// The rows and entries of a matrix.
#[derive(Clone, Copy)]
pub struct MatrixSizes {
    pub rows: u64,
    pub entries: u64,
}

// Whether bytes are an MX record.
fn matrix_ok(b: &[u8]) -> bool
    ensures { result ≡ matrix_ok b.now }
{
    let rows = u32_at(b, 2);
    let entries = u32_at(b, 6);
    is_marked(b, Mark::Matrix)
        & ((rows <= 64) & (entries <= 320))
        & (b.len() == (14 + 4 * rows + 12 * entries) as usize)
}

// The arrays of a matrix of so many rows and entries, to the starts of three slices.
fn lay_matrix(
    b: &[u8],
    rows: usize,
    entries: usize,
    offsets: &mut [u32; 65],
    columns: &mut [u32; 320],
    values: &mut [f64; 320],
)
    requires { Sizes rows entries }
    ensures { MatrixLaid b.now rows entries offsets.old offsets.new columns.old columns.new values.old values.new }
{
    read_words(b, 10, rows + 1, offsets);
    read_words(b, 14 + 4 * rows, entries, columns);
    read_floats(b, 14 + 4 * rows + 4 * entries, entries, values);
}

// The matrix of an MX record, to the starts of three slices.
pub fn read_matrix(
    b: &[u8],
    offsets: &mut [u32; 65],
    columns: &mut [u32; 320],
    values: &mut [f64; 320],
) -> Result<MatrixSizes, Refusal>
    ensures { MatrixIs (read_matrix b.now) offsets.old offsets.new columns.old columns.new values.old values.new result }
{
    let rows = u32_at(b, 2);
    let entries = u32_at(b, 6);
    if matrix_ok(b) {
        lay_matrix(b, rows as usize, entries as usize, offsets, columns, values);
        Ok(MatrixSizes { rows, entries })
    } else {
        Err(crate::BAD_RECORD)
    }
}
