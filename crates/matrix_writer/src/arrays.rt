// The arrays of a matrix where they stand in the bytes of its record.
ghost use Rattle.std.specs.Prelude.{◌≡◌, ◌≤◌, ◌<◌};
ghost use Rattle.store.specs.Region.{at};
ghost use Rattle.record_format.specs.Steps.{WordIs};
ghost use Rattle.matrix_writer.specs.Contract.{sized_matrix, SizesFit, WordOf, RowsIn, RangeIs};

use record_format::bytes::byte_at;

// The entries of a row: from `first` up to `last`.
#[derive(Clone, Copy)]
pub struct RowRange {
    pub first: usize,
    pub last: usize,
}

// The bytes of a record with so many rows and entries, which question 1 has passed.
#[derive(Clone, Copy)]
pub struct Arrays<'a> {
    pub bytes: &'a [u8],
    pub rows: usize,
    pub entries: usize,
    pub ghost fits: { SizesFit rows entries },
}

// What a file is written from: arrays whose rows lie among the entries, as question 2 asks, and whether the file is symmetric (as C says it).
#[derive(Clone, Copy)]
pub struct Source<'a> {
    pub arrays: Arrays<'a>,
    pub symmetric: bool,
    pub ghost rows_in: { RowsIn (sized_matrix arrays.bytes.now arrays.rows arrays.entries) },
}

// The u32 whose four bytes start at a place, which may be further on than in a problem file.
fn word_at(b: &[u8], at: usize) -> u64
    requires { at ≤ 1000000000 }
    ensures { WordIs b.now at result }
{
    let first = byte_at(b, at);
    let second = byte_at(b, at + 1);
    let third = byte_at(b, at + 2);
    let fourth = byte_at(b, at + 3);
    first + 256 * second + 65536 * third + 16777216 * fourth
}

// Rows or entries, which stand at 2 and at 6.
pub fn size_at(b: &[u8], at: usize) -> usize
    requires { at ≤ 6 }
    ensures { WordIs b.now at result }
{
    word_at(b, at) as usize
}

impl<'a> Arrays<'a> {
    ghost use Rattle.matrix_writer.specs.Sized.{matrix_in};

    // Where row k starts; behind the last row, the number of entries.
    pub fn offset_at(&self, k: usize) -> usize
        requires { k ≤ self.now.rows }
        ensures { WordOf (matrix_in self.now).offsets k result }
    {
        word_at(self.bytes, 10 + 4 * k) as usize
    }

    // The column of entry e.
    pub fn column_at(&self, e: usize) -> usize
        requires { e < self.now.entries }
        ensures { WordOf (matrix_in self.now).columns e result }
    {
        word_at(self.bytes, 14 + 4 * self.rows + 4 * e) as usize
    }

    // The value of entry e.
    pub fn value_at(&self, e: usize) -> f64
        requires { e < self.now.entries }
        ensures { result ≡ at (matrix_in self.now).values e }
    {
        let place = 14 + 4 * self.rows + 4 * self.entries + 8 * e;
        let low = word_at(self.bytes, place);
        let high = word_at(self.bytes, place + 4);
        float::of_bits(low + 4294967296 * high)
    }
}

impl<'a> Source<'a> {
    ghost use Rattle.matrix_writer.specs.Sized.{matrix_in};

    // Where a row starts and ends, which is among the entries.
    pub fn range_at(&self, row: usize) -> RowRange
        requires { row < self.now.arrays.rows }
        ensures { RangeIs (matrix_in self.now.arrays) row result }
    {
        let first = self.arrays.offset_at(row);
        let last = self.arrays.offset_at(row + 1);
        RowRange { first, last }
    }
}
