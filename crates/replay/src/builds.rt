// A list of builds beside the Rust's answers.
use lists::kinds::Answer;
use lists::stores::{Extent, Noise, sum, view_end};
use lists::{Reader, Stores, kinds, reading};
use options::Handle;
use refusal::Refusal;
use std::io;

// The answer of a build in numbers, as the list has it.
fn told(built: Result<Handle, Refusal>) -> Answer {
    match built {
        Ok(h) => Answer {
            number: 0,
            level: 0,
            row: 0,
            levels: h.levels,
        },
        Err(q) => Answer {
            number: q.number,
            level: q.level,
            row: q.row,
            levels: 0,
        },
    }
}

// The answer that is due, which stands next.
fn due(input: &mut Reader) -> Answer {
    Answer {
        number: input.number(),
        level: input.number(),
        row: input.number(),
        levels: input.number(),
    }
}

// Whether the statistics are the rows of each level, which stand next, with counters of zero.
fn same_statistics(input: &mut Reader, levels: u64, stores: &Stores) -> bool {
    let s = &stores.statistics;
    let mut left = sum(stores.told());
    let mut k = 0;
    for _ in 0..levels {
        let rows = input.number();
        if k >= s.len() || s[k] != rows {
            return false;
        }
        left = left.wrapping_sub(rows);
        k += 5;
    }
    left == 0
}

// What is compared: the whole hierarchy of an accepted build, which is nothing where it has no levels, and all that was lent to one that
// refuses, since that leaves zeros.
fn compared(a: Answer, stores: &Stores) -> Extent {
    if a.number != 0 {
        return stores.lent;
    }
    if a.levels == 0 {
        return Extent::NONE;
    }
    view_end(&stores.words, a.levels)
}

// Whether an answer and the stores that it left are as the list has them, whose text ends with them.
fn agrees(input: &mut Reader, a: Answer, stores: &Stores) -> bool {
    let answer = a == due(input);
    let rows = same_statistics(input, a.levels, stores);
    let left = stores.checksum(compared(a, stores)) == input.number();
    answer & rows & left & input.ends()
}

// The next build of the list: it is counted under its answer. The stores are full of noise before.
fn next_build(rt: &impl Input, stores: &mut Stores, counts: &mut [u64; 193]) -> io::Result<bool> {
    let mut text = [0u8; 65536];
    let size = reading::record(rt, &mut text)?;
    let mut input = Reader::over(&text, size);
    stores.fill(Noise::LOUD);
    let a = told(lists::from_text(&mut input, stores));
    kinds::count(counts, a);
    Ok(agrees(&mut input, a, stores))
}

// The lines that the program writes for the list.
fn report(rt: &impl Print, counts: &[u64; 193], builds: u64, differences: u64) -> io::Result<()> {
    kinds::print(rt, counts)?;
    kinds::print_total(rt, builds, b" builds", differences)
}

// All builds of the list: a line for each kind of answer, then how many there are and how many differ.
pub fn replay(rt: &(impl Input + Print)) -> io::Result<()> {
    let builds = reading::length(rt)?;
    // Zeros, which the first record's noise takes the place of: written out, since a function would hand over a copy.
    let mut stores = Stores {
        words: [0; 8192],
        floats: [0.0; 8192],
        statistics: [0; 640],
        lent: Extent::NONE,
        counters: 0,
    };
    let mut counts = [0u64; 193];
    let mut differences: u64 = 0;
    for _ in 0..builds {
        if !next_build(rt, &mut stores, &mut counts)? {
            differences += 1;
        }
    }
    report(rt, &counts, builds, differences)
}
