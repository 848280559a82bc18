// The order of records in a problem file, as a state by value: what has come, what may come next, and what is to be done with the bytes
// that have been read of a record.
#![tactic(auto)]

ghost use Rattle.std.specs.Prelude.{◌≡◌, cond, leb};
ghost use Rattle.record_format.specs.Bytes.{u32_at};
ghost use Rattle.record_format.specs.Format.{sizes_ok, matrix_length, values_length, solve_length};
ghost use Rattle.record_order.specs.Order.{nothing, allowed, after_of, head_length, record_size, named_of, until_of, sized_of, judged_of, what_next, ending_of};

use record_format::bytes::u32_at;
use record_format::{Mark, is_marked};
use refusal::Refusal;

// Which records have come, and the sizes of the matrix among them. `calls` says that an UP or an SO has come, so that the build is made.
// The sizes stand beside `matrix` and in no `Option`: `what_next` and the theorem on room (proofs/Room.antt) are of every `Came`, and who
// reads the sizes would have to ask again for a matrix, which `allows` has asked.
#[derive(Clone, Copy)]
pub struct Came {
    pub controls: bool,
    pub matrix: bool,
    pub weights: bool,
    pub calls: bool,
    pub rows: u64,
    pub entries: u64,
}

// What is to be done next: read so many bytes more, or act on a whole record.
#[derive(Clone, Copy)]
pub enum Next {
    Read(usize),
    Whole(Mark),
}

// What the end of the input asks for.
#[derive(Clone, Copy)]
pub enum Ending {
    Build,
    Done,
}

impl Came {
    pub fn nothing() -> Came
        ensures { result ≡ nothing }
    {
        Came {
            controls: false,
            matrix: false,
            weights: false,
            calls: false,
            rows: 0,
            entries: 0,
        }
    }

    // Whether a record of that mark may come next.
    pub fn allows(self, mark: Mark) -> bool
        ensures { result ≡ allowed self mark }
    {
        match mark {
            Mark::Controls => !self.controls & !self.calls,
            Mark::Matrix => !self.matrix & !self.calls,
            Mark::Weights => self.matrix & !self.weights & !self.calls,
            Mark::Update | Mark::Solve => self.controls & self.matrix,
        }
    }

    // What has come after a record; of a matrix its rows and entries are kept.
    pub fn after(mut self, mark: Mark, rows: u64, entries: u64) -> Came
        ensures { result ≡ after_of self mark rows entries }
    {
        match mark {
            Mark::Controls => self.controls = true,
            Mark::Matrix => {
                self.matrix = true;
                self.rows = rows;
                self.entries = entries;
            }
            Mark::Weights => self.weights = true,
            Mark::Update | Mark::Solve => self.calls = true,
        }
        self
    }

    // At the end of the input between records.
    pub fn at_end(self) -> Result<Ending, Refusal>
        ensures { result ≡ ending_of self }
    {
        if self.controls & self.matrix {
            if self.calls {
                Ok(Ending::Done)
            } else {
                Ok(Ending::Build)
            }
        } else {
            Err(record_format::BAD_RECORD)
        }
    }
}

// The mark that bytes start with.
fn mark_of(b: &[u8]) -> Option<Mark>
    ensures { result ≡ named_of b.now }
{
    let marks = [
        Mark::Controls,
        Mark::Matrix,
        Mark::Weights,
        Mark::Update,
        Mark::Solve,
    ];
    marks.iter().copied().find(|&mark| is_marked(b, mark))
}

// How many bytes of a record tell its size.
#[tactic(auto, unfolding(crate::specs::Order::head_length))]
fn head(mark: Mark) -> usize
    ensures { result ≡ head_length mark }
{
    match mark {
        Mark::Matrix => 10,
        Mark::Controls | Mark::Weights | Mark::Update | Mark::Solve => 2,
    }
}

// The sizes below are 0 where a record would be too large, and no `Option`: `record_size` of the specification has them so, and no record
// is empty.

// The size of an MX record that starts with these bytes.
fn matrix_size(b: &[u8]) -> u64
    ensures { result ≡ cond (sizes_ok (u32_at b.now 2) (u32_at b.now 6)) (matrix_length (u32_at b.now 2) (u32_at b.now 6)) 0 }
{
    let rows = u32_at(b, 2);
    let entries = u32_at(b, 6);
    if (rows <= 64) & (entries <= 320) {
        14 + 4 * rows + 12 * entries
    } else {
        0
    }
}

// The size of an FW or UP record.
fn values_size(entries: u64) -> u64
    ensures { result ≡ cond (leb entries 320) (values_length entries) 0 }
{
    if entries <= 320 { 2 + 8 * entries } else { 0 }
}

// The size of an SO record.
fn solve_size(rows: u64) -> u64
    ensures { result ≡ cond (leb rows 64) (solve_length rows) 0 }
{
    if rows <= 64 { 26 + 16 * rows } else { 0 }
}

// The size of a record that starts with these bytes.
#[tactic(auto, unfolding(crate::specs::Order::record_size))]
fn size(c: Came, b: &[u8], mark: Mark) -> u64
    ensures { result ≡ record_size c b.now mark }
{
    match mark {
        Mark::Controls => 110,
        Mark::Matrix => matrix_size(b),
        Mark::Weights | Mark::Update => values_size(c.entries),
        Mark::Solve => solve_size(c.rows),
    }
}

// So many bytes in all: what is missing is read, then the record is whole.
fn until(mark: Mark, size: usize, had: usize) -> Next
    ensures { result ≡ until_of mark size had }
{
    if had < size {
        Next::Read(size - had)
    } else {
        Next::Whole(mark)
    }
}

// A record of that mark: what tells its size is read, the size is judged, and the rest is read.
fn sized(c: Came, b: &[u8], mark: Mark) -> Result<Next, Refusal>
    ensures { result ≡ sized_of c b.now mark }
{
    let had = b.len();
    let head = head(mark);
    if had < head {
        return Ok(Next::Read(head - had));
    }
    let size = size(c, b, mark);
    if size == 0 {
        return Err(record_format::BAD_RECORD);
    }
    Ok(until(mark, size as usize, had))
}

// What is to be done next, with these bytes of a record read. A mark is judged when it is there.
pub fn judge(c: Came, b: &[u8]) -> Result<Next, Refusal>
    ensures { result ≡ what_next c b.now }
{
    if b.len() < 2 {
        return Ok(Next::Read(2 - b.len()));
    }
    match mark_of(b) {
        Some(mark) if c.allows(mark) => sized(c, b, mark),
        _ => Err(record_format::BAD_RECORD),
    }
}
