// The record of entries in their order, over the start of an output. Columns, values, starts and order come as slices of what C lends, cut
// to their length, from `file::convert` alone; a struct of the four would have that one place that makes it and this file that takes it apart.
ghost use Rattle.std.specs.Prelude.{◌≡◌, map, ◌+◌, ◌*◌, length, take};
ghost use Rattle.store.specs.Region.{at, idx, Wrote};
ghost use Rattle.store.specs.Vector.{filled};
ghost use Rattle.record_format.specs.Bytes.{bytes4, float_bytes, flat};
ghost use Rattle.record_format.specs.Format.{matrix_bytes};
ghost use Rattle.matrix_reader.specs.File.{matrix_from, ConvertedIs};
ghost use Rattle.matrix_reader.specs.Writes.{PickOk, RecordRoom, ordered_matrix, FinishOk};

use record_format::bytes::{put_f64, put_u32, write_words};
use record_format::writing::put_sizes;
use refusal::Refusal;
use store::wide;

// Every byte zero.
pub fn zero_bytes(out: &mut [u8])
    ensures { out.new ≡ filled (length out.old) 0 }
{
    let n = out.len();
    store::fill(out, 0, n, 0);
}

// Those words whose numbers `order` has, four bytes each, from a place on. This loop and that of the floats are written out: of a common
// one the width, the bytes and the call would be parameters, and it would be longer than they are.
fn write_picked(out: &mut [u8], to: usize, order: &[u32], words: &[u32])
    requires { PickOk to 4 order.now (length words.now) (length out.old) }
    ensures { Wrote to (4 * length order.now) (flat bytes4 (map (idx words.now) order.now)) out.old out.new }
{
    for k in 0..order.len() {
        let i = wide(order[k]);
        put_u32(out, to + 4 * k, u64::from(words[i]));
    }
}

// Those floats whose numbers `order` has, from a place on.
fn write_picked_floats(out: &mut [u8], to: usize, order: &[u32], floats: &[f64])
    requires { PickOk to 8 order.now (length floats.now) (length out.old) }
    ensures { Wrote to (8 * length order.now) (flat float_bytes (map (at floats.now) order.now)) out.old out.new }
{
    for k in 0..order.len() {
        let i = wide(order[k]);
        put_f64(out, to + 8 * k, floats[i]);
    }
}

// The record of a matrix whose rows start at `starts`, with its entries in that order; its length is the answer.
fn write_record(
    columns: &[u32],
    values: &[f64],
    starts: &[u32],
    order: &[u32],
    out: &mut [u8],
) -> usize
    requires { RecordRoom columns.now values.now starts.now order.now (length out.old) }
    ensures { Wrote 0 result (matrix_bytes (ordered_matrix columns.now values.now starts.now order.now)) out.old out.new }
{
    let rows = starts.len() - 1;
    let entries = order.len();
    put_sizes(out, rows as u64, entries as u64);
    write_words(out, 10, starts);
    let first = 10 + 4 * (rows + 1);
    write_picked(out, first, order, columns);
    let second = first + 4 * entries;
    write_picked_floats(out, second, order, values);
    second + 8 * entries
}

// The record of `total` entries, mirrors included, of a matrix of n rows, if they are not too many and the output has room for it.
pub fn finish(
    n: usize,
    total: usize,
    columns: &[u32],
    values: &[f64],
    starts: &[u32],
    order: &[u32],
    out: &mut [u8],
) -> Result<usize, Refusal>
    requires { FinishOk n total columns.now values.now starts.now order.now }
    ensures { ConvertedIs (matrix_from (length out.old) (ordered_matrix columns.now values.now (take (n + 1) starts.now) (take total order.now))) out.old out.new result }
{
    if total > 1048576 {
        return Err(refusal::TOO_LARGE);
    }
    if out.len() < 14 + 4 * n + 12 * total {
        return Err(refusal::STORE_TOO_SMALL);
    }
    let last = n + 1;
    let length = write_record(columns, values, &starts[..last], &order[..total], out);
    Ok(length)
}
