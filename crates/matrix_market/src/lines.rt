// The lines of a text that count, and the fields of a line, by their places.
ghost use Rattle.std.specs.Prelude.{◌≡◌, ◌≤◌, ◌<◌, length};
ghost use Rattle.matrix_market.specs.Lines.{return_of, is_data};
ghost use Rattle.matrix_market.specs.Walk.{blanks_of, NextField, ThreeFields, FirstLine, LineAt, NextLine};

use decimal_text::field::find_either;

// Where a field stands in its line: from `from` up to `to`. Where there is none, both are the line's end.
#[derive(Clone, Copy, Debug, PartialEq, Eq)]
pub struct Field {
    pub from: usize,
    pub to: usize,
}

// Where a line stands in the text, and where the next one starts.
#[derive(Clone, Copy, Debug, PartialEq, Eq)]
pub struct Line {
    pub from: usize,
    pub to: usize,
    pub next: usize,
}

// How many spaces and tabs a slice starts with.
fn leading_blanks(s: &[u8]) -> usize
    ensures { result ≡ blanks_of s.now }
{
    for (i, &x) in s.iter().enumerate() {
        if !((x == b' ') | (x == b'\t')) {
            return i;
        }
    }
    s.len()
}

// The next field of a line, from `at` on.
fn next_field(line: &[u8], at: usize) -> Field
    requires { at ≤ length line.now }
    ensures { NextField line.now at result }
{
    let from = at + leading_blanks(&line[at..]);
    let to = from + find_either(&line[from..], b' ', b'\t');
    Field { from, to }
}

// Where the three fields of a line stand, if it has three.
pub fn three_fields(line: &[u8]) -> Option<(Field, Field, Field)>
    ensures { ThreeFields line.now result }
{
    let first = next_field(line, 0);
    let second = next_field(line, first.to);
    let third = next_field(line, second.to);
    let fourth = next_field(line, third.to);
    let end = fourth.from;
    let start = third.from;
    if (start < line.len()) & (end == line.len()) {
        Some((first, second, third))
    } else {
        None
    }
}

// How many bytes of a line stand before a carriage return at its end.
fn return_length(line: &[u8]) -> usize
    ensures { result ≡ return_of line.now }
{
    let n = line.len();
    if n == 0 {
        return 0;
    }
    let last = line[n - 1];
    if last == b'\r' { n - 1 } else { n }
}

// How many bytes the first line of a text has.
pub fn first_line(text: &[u8]) -> usize
    ensures { FirstLine text.now result }
{
    let stop = find_either(text, b'\n', b'\n');
    return_length(&text[..stop])
}

// Whether a line is neither blank nor a comment.
fn is_data(line: &[u8]) -> bool
    ensures { result ≡ is_data line.now }
{
    let first = next_field(line, 0);
    first.from < line.len() && line[0] != b'%'
}

// The line that starts at `from`.
fn line_at(text: &[u8], from: usize) -> Line
    requires { from < length text.now }
    ensures { LineAt text.now from result }
{
    let stop = from + find_either(&text[from..], b'\n', b'\n');
    let to = from + return_length(&text[from..stop]);
    let next = text.len().min(stop + 1);
    Line { from, to, next }
}

// The first line that counts, from `at` on, where a line starts.
pub fn next_line(text: &[u8], at: usize) -> Option<Line>
    requires { at ≤ length text.now }
    ensures { NextLine text.now at result }
{
    let mut from = at;
    // A while: where the next line starts is known once this one has been read.
    while from < text.len() {
        let line = line_at(text, from);
        if is_data(&text[line.from..line.to]) {
            return Some(line);
        }
        from = line.next;
    }
    None
}
