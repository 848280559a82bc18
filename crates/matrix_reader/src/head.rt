// The header of a text, and its size line.
// `kind_of`, `number_of`, `sizes_of` and `head_of` each read another piece of a text, and are no `TryFrom` of its bytes: their calls would
// then say the type of what is read in place of which piece it is.
ghost use Rattle.std.specs.Prelude.{◌≡◌, true, ◌^◌, min};
ghost use Rattle.decimal_text.specs.Field.{is_number, number_of};
ghost use Rattle.matrix_market.specs.Lines.{fields_of, first_line};
ghost use Rattle.matrix_reader.specs.File.{same_bytes, kind_of, three_sizes, sizes_from};
ghost use Rattle.matrix_reader.specs.Contract.{kind_answer, sizes_answer, SizeLineIs, HeadIs};

use decimal_text::field::{number_in, same_number};
use matrix_market::lines::{first_line, next_line, three_fields};
use refusal::Refusal;

// The rows and the entries that a file states.
#[derive(Clone, Copy)]
pub struct FileSizes {
    pub rows: u64,
    pub entries: u64,
}

// What header and size line state, and where the line behind them starts.
#[derive(Clone, Copy)]
pub struct Head {
    pub symmetric: bool,
    pub rows: u64,
    pub entries: u64,
    pub next: usize,
}

// Whether two slices have the same bytes.
fn same_bytes(a: &[u8], b: &[u8]) -> bool
    ensures { result ≡ same_bytes a.now b.now }
{
    a == b
}

// The kind that the first line of a text states.
fn kind_of(text: &[u8]) -> Result<bool, Refusal>
    ensures { result ≡ kind_answer (kind_of (first_line text.now)) }
{
    let n = first_line(text);
    let line = &text[..n];
    if same_bytes(line, b"%%MatrixMarket matrix coordinate real symmetric") {
        return Ok(true);
    }
    if same_bytes(line, b"%%MatrixMarket matrix coordinate real general") {
        return Ok(false);
    }
    Err(refusal::BAD_MATRIX_FILE)
}

// Whether a field is a digit string.
fn is_number(s: &[u8]) -> bool
    ensures { result ≡ is_number s.now }
{
    number_in(s).is_some()
}

// The number of a digit string, up to 10^19.
fn number_of(s: &[u8]) -> u64
    requires { is_number s.now ≡ true }
    ensures { result ≡ min (number_of s.now) (10 ^ 19) }
{
    number_in(s).unwrap_or(0)
}

// The sizes of the three fields of a size line.
fn three_sizes(a: &[u8], b: &[u8], c: &[u8]) -> Result<FileSizes, Refusal>
    ensures { result ≡ sizes_answer (three_sizes a.now b.now c.now) }
{
    let first = is_number(a);
    let second = is_number(b);
    let third = is_number(c);
    if first & (second & third) {
        if same_number(a, b) {
            let rows = number_of(a);
            let entries = number_of(c);
            if (rows <= 65536) & (entries <= 1048576) {
                return Ok(FileSizes { rows, entries });
            }
            return Err(refusal::TOO_LARGE);
        }
        return Err(refusal::BAD_MATRIX_FILE);
    }
    Err(refusal::BAD_MATRIX_FILE)
}

// The sizes of a line.
fn sizes_of(line: &[u8]) -> Result<FileSizes, Refusal>
    ensures { result ≡ sizes_answer (sizes_from (fields_of line.now)) }
{
    let Some((first, second, third)) = three_fields(line) else {
        return Err(refusal::BAD_MATRIX_FILE);
    };
    three_sizes(
        &line[first.from..first.to],
        &line[second.from..second.to],
        &line[third.from..third.to],
    )
}

// The size line of a text of that kind: the first line that counts.
fn size_line(text: &[u8], symmetric: bool) -> Result<Head, Refusal>
    ensures { SizeLineIs text.now symmetric result }
{
    let Some(line) = next_line(text, 0) else {
        return Err(refusal::BAD_MATRIX_FILE);
    };
    let FileSizes { rows, entries } = sizes_of(&text[line.from..line.to])?;
    Ok(Head {
        symmetric,
        rows,
        entries,
        next: line.next,
    })
}

// The header and the size line of a text.
pub fn head_of(text: &[u8]) -> Result<Head, Refusal>
    ensures { HeadIs text.now result }
{
    let symmetric = kind_of(text)?;
    size_line(text, symmetric)
}
