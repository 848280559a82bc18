// A whole text: header, sizes, entries, the sort that finds repeats, and the record.
// There is no heap: `read_matrix_file` takes the scratch that C lends as the slices that its export has, and hands them on as they are.
ghost use Rattle.std.specs.Prelude.{◌≡◌, ◌≤◌, length, take};
ghost use Rattle.store.specs.Vector.{filled};
ghost use Rattle.coordinate.specs.Contract.{Sorted};
ghost use Rattle.matrix_reader.specs.File.{most_of, has_room, slices_of, file_of, ConvertedIs};
ghost use Rattle.matrix_reader.specs.Contract.{stated_by};
ghost use Rattle.matrix_reader.specs.Whole.{HeadLimits, GatherOk, GatherIs, SortRoom};

use crate::entries::{LinesError, put_mirrors, read_lines};
use crate::head::{Head, head_of};
use crate::record::{finish, zero_bytes};
use coordinate::sort_places;
use refusal::Refusal;

// How many entries a file that states so many may have with their mirrors.
fn most_of(symmetric: bool, entries: usize) -> usize
    requires { entries ≤ 1048576 }
    ensures { result ≡ most_of symmetric entries }
{
    if symmetric { 2 * entries } else { entries }
}

// Whether slices of these lengths have room for every file with this head.
fn has_room(
    h: Head,
    rows: usize,
    columns: usize,
    values: usize,
    starts: usize,
    order: usize,
    links: usize,
) -> bool
    requires { HeadLimits h }
    ensures { result ≡ has_room (record { rows = rows; columns = columns; values = values; starts = starts; order = order; links = links; out = 0 }) h.symmetric (stated_by h) }
{
    let most = most_of(h.symmetric, h.entries as usize);
    let n = h.rows as usize;
    (most <= rows)
        & ((most <= columns)
            & ((most <= values) & ((n + 1 <= starts) & ((most <= order) & (most <= links)))))
}

// The entries of a file with their mirrors, or what is wrong with their lines; repeats are not looked for.
fn gather(
    text: &[u8],
    h: Head,
    rows: &mut [u32],
    columns: &mut [u32],
    values: &mut [f64],
) -> Result<usize, LinesError>
    requires { GatherOk text.now h rows.old columns.old values.old }
    ensures { GatherIs text.now h rows.new columns.new values.new result }
{
    let m = read_lines(text, h, rows, columns, values)?;
    if m != h.entries as usize {
        return Err(LinesError::Malformed);
    }
    if !h.symmetric {
        return Ok(m);
    }
    Ok(put_mirrors(m, rows, columns, values))
}

// Whether no place stands twice among the first `total` entries, which are then put in order.
fn sort_entries(
    n: usize,
    total: usize,
    rows: &[u32],
    columns: &[u32],
    starts: &mut [u32],
    order: &mut [u32],
    links: &mut [u32],
) -> bool
    requires { SortRoom n total rows.now columns.now starts.old order.old links.old }
    ensures { Sorted n (take total rows.now) (take total columns.now) starts.old order.old starts.new order.new result }
{
    let mut heads: [u32; 65536] = [0; 65536];
    sort_places(
        n,
        &rows[..total],
        &columns[..total],
        &mut heads,
        starts,
        order,
        links,
    )
}

// A text read into a record over the start of an output; where it is refused, the output stays.
fn convert(
    text: &[u8],
    rows: &mut [u32],
    columns: &mut [u32],
    values: &mut [f64],
    starts: &mut [u32],
    order: &mut [u32],
    links: &mut [u32],
    out: &mut [u8],
) -> Result<usize, Refusal>
    ensures { ConvertedIs (file_of text.now (slices_of rows.old columns.old values.old starts.old order.old links.old out.old)) out.old out.new result }
{
    let h = head_of(text)?;
    if !has_room(
        h,
        rows.len(),
        columns.len(),
        values.len(),
        starts.len(),
        order.len(),
        links.len(),
    ) {
        return Err(refusal::STORE_TOO_SMALL);
    }
    let n = h.rows as usize;
    let lines = gather(text, h, rows, columns, values);
    match lines {
        Err(LinesError::Malformed) => Err(refusal::BAD_MATRIX_FILE),
        Err(LinesError::BadValue(m)) => {
            if sort_entries(n, m + 1, rows, columns, starts, order, links) {
                return Err(refusal::BAD_NUMBER);
            }
            Err(refusal::BAD_MATRIX_FILE)
        }
        Ok(m) => {
            if sort_entries(n, m, rows, columns, starts, order, links) {
                return finish(n, m, &columns[..m], &values[..m], starts, order, out);
            }
            Err(refusal::BAD_MATRIX_FILE)
        }
    }
}

// The MX record of a Matrix Market text, and zeros behind it; where the text is refused, zeros alone. The other slices are scratch: for rows,
// columns and values of entries and their mirrors, for where rows start, and for the order of the entries and links between them.
pub fn read_matrix_file(
    text: &[u8],
    rows: &mut [u32],
    columns: &mut [u32],
    values: &mut [f64],
    starts: &mut [u32],
    order: &mut [u32],
    links: &mut [u32],
    out: &mut [u8],
) -> Result<usize, Refusal>
    ensures { ConvertedIs (file_of text.now (slices_of rows.old columns.old values.old starts.old order.old links.old out.old)) (filled (length out.old) 0) out.new result }
{
    zero_bytes(out);
    convert(text, rows, columns, values, starts, order, links, out)
}
