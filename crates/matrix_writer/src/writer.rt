// The writing of a whole file.
ghost use Rattle.matrix_writer.specs.Writing.{write_file};
ghost use Rattle.matrix_writer.specs.Contract.{Ready, WriteDone};
ghost use Rattle.std.specs.Prelude.{length};

use crate::arrays::{Arrays, Source, size_at};
use crate::lines::{put_file, zero_bytes};
use crate::questions::check_record;
use refusal::Refusal;

// The text of a record that passed its questions, into an output of zeros; where it is too short, the output is cleared again.
fn write_checked(symmetric: bool, mx: &[u8], out: &mut [u8]) -> Result<usize, Refusal>
    requires { Ready symmetric mx.now out.old }
    ensures { WriteDone (write_file symmetric (length out.old) mx.now) out.old out.new result }
{
    let rows = size_at(mx, 2);
    let entries = size_at(mx, 6);
    let arrays = Arrays {
        bytes: mx,
        rows,
        entries,
    };
    let source = Source { arrays, symmetric };
    let size = put_file(&source, out);
    if size <= out.len() {
        return Ok(size);
    }
    zero_bytes(out);
    Err(refusal::STORE_TOO_SMALL)
}

// The text of an MX record, symmetric or general, with zeros behind it; all zeros where it is refused. The output is cleared first, so that
// nothing but the text is left of what is written.
pub fn write_matrix_file(symmetric: bool, mx: &[u8], out: &mut [u8]) -> Result<usize, Refusal>
    ensures { WriteDone (write_file symmetric (length out.old) mx.now) out.old out.new result }
{
    zero_bytes(out);
    check_record(symmetric, mx)?;
    write_checked(symmetric, mx, out)
}
