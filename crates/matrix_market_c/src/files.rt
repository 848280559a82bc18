// The conversions, each one call whose answer is told as a struct.
ghost use Rattle.std.specs.Prelude.{◌≡◌, length};
ghost use Rattle.store.specs.Vector.{filled};
ghost use Rattle.matrix_reader.specs.File.{slices_of, file_of};
ghost use Rattle.matrix_writer.specs.Writing.{write_file};
ghost use Rattle.matrix_market_c.specs.Files.{converted_struct, ReadExported, yes_of, WriteExported};

use export::AnswerForC;
use matrix_reader::file::read_matrix_file;
use matrix_writer::write_matrix_file;
use refusal::Refusal;

// The answer of a conversion: how many bytes of the output it has. Every field has eight bytes.
#[repr(C)]
#[derive(Clone, Copy)]
pub struct ConvertedForC {
    pub answer: AnswerForC,
    pub length: u64,
}

// The answer of a conversion as a struct.
fn tell(converted: Result<usize, Refusal>) -> ConvertedForC
    ensures { result ≡ converted_struct converted }
{
    match converted {
        Ok(length) => ConvertedForC {
            answer: AnswerForC::DONE,
            length: length as u64,
        },
        Err(refusal) => ConvertedForC {
            answer: AnswerForC::from(refusal),
            length: 0,
        },
    }
}

// `read_matrix_file`: the MX record of a text, with zeros behind it; all zeros where it is refused. The six slices between are scratch.
#[unsafe(no_mangle)]
pub extern "C" fn multigrid_read_matrix_file(
    text: &[u8],
    rows: &mut [u32],
    columns: &mut [u32],
    values: &mut [f64],
    starts: &mut [u32],
    order: &mut [u32],
    links: &mut [u32],
    out: &mut [u8],
) -> ConvertedForC
    ensures { ReadExported (file_of text.now (slices_of rows.old columns.old values.old starts.old order.old links.old out.old)) (filled (length out.old) 0) out.new result }
{
    let read = read_matrix_file(text, rows, columns, values, starts, order, links, out);
    tell(read)
}

// `write_matrix_file`: the text of an MX record, symmetric unless the number is 0, with zeros behind it; all zeros where it is refused.
#[unsafe(no_mangle)]
pub extern "C" fn multigrid_write_matrix_file(
    symmetric: u64,
    mx: &[u8],
    out: &mut [u8],
) -> ConvertedForC
    ensures { WriteExported (write_file (yes_of symmetric) (length out.old) mx.now) out.old out.new result }
{
    let written = write_matrix_file(symmetric != 0, mx, out);
    tell(written)
}
