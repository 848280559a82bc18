// An update of a list: its arguments, the call, and its answer beside the one that is due.
use crate::recall::Told;
use lists::{Matrix, Reader, Stores, first};
use options::Handle;
use refusal::Refusal;

// The arrays of an update, and how much of each it gets.
#[derive(Drop)]
struct Call {
    offsets: [u32; 128],
    columns: [u32; 128],
    values: [f64; 128],
    rows: usize,
    entries: usize,
    numbers: usize,
}

impl Call {
    // The one that stands next.
    fn read(input: &mut Reader) -> Call {
        let mut offsets = [0; 128];
        let mut columns = [0; 128];
        let mut values = [0.0; 128];
        let rows = input.size();
        let entries = input.size();
        let numbers = input.size();
        input.numbers(rows, &mut offsets);
        input.numbers(entries, &mut columns);
        input.numbers(numbers, &mut values);
        Call {
            offsets,
            columns,
            values,
            rows,
            entries,
            numbers,
        }
    }

    // It is made, over so much of each array as it is to get.
    fn make(&self, handle: Handle, stores: &mut Stores) -> Result<(), Refusal> {
        let matrix = Matrix {
            offsets: first(&self.offsets, self.rows),
            columns: first(&self.columns, self.entries),
            values: first(&self.values, self.numbers),
        };
        stores.update(handle, matrix)
    }
}

// What an update answers: zero or the number of the question that refuses, its level and its row. Numbers and no Result, as the list has
// them: an answer that is due can be any three.
#[derive(Clone, Copy, PartialEq)]
struct UpdateAnswer {
    number: u64,
    level: u64,
    row: u64,
}

impl UpdateAnswer {
    fn of(updated: Result<(), Refusal>) -> UpdateAnswer {
        match updated {
            Ok(()) => UpdateAnswer {
                number: 0,
                level: 0,
                row: 0,
            },
            Err(q) => UpdateAnswer {
                number: q.number,
                level: q.level,
                row: q.row,
            },
        }
    }

    // Updates have two kinds to each question, refused on the finest level or below it; none refuses in the first.
    fn kind(self) -> usize {
        let question = (self.number % 32) as usize;
        2 * question + usize::from(self.level != 0)
    }
}

// The answer that is due, which stands next.
fn due(input: &mut Reader) -> UpdateAnswer {
    UpdateAnswer {
        number: input.number(),
        level: input.number(),
        row: input.number(),
    }
}

// The update that stands next.
pub fn update(input: &mut Reader, handle: Handle, stores: &mut Stores) -> Told {
    let call = Call::read(input);
    let answer = UpdateAnswer::of(call.make(handle, stores));
    Told {
        kind: answer.kind(),
        same: answer == due(input),
    }
}
