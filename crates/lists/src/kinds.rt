// How many calls there are of each kind of answer.
ghost use Rattle.std.specs.Prelude.{◌<◌};

use std::io;

// What a call answers: zero or the number of the question that refuses, its level and row, and the levels built. Numbers and no Result, as
// the list has them: an answer that is due can be any four.
#[derive(Clone, Copy, PartialEq)]
pub struct Answer {
    pub number: u64,
    pub level: u64,
    pub row: u64,
    pub levels: u64,
}

impl Answer {
    // Accepted builds by their levels, up to 128; then two kinds to each question: refused on the finest level or below it. Kinds are
    // numbers, the places of the counters and the order of the lines: an enum would be made into this number for each use.
    fn kind(self) -> usize
        ensures { result < 193 }
    {
        if self.number == 0 {
            (self.levels % 129) as usize
        } else if self.level == 0 {
            129 + 2 * (self.number % 32) as usize
        } else {
            130 + 2 * (self.number % 32) as usize
        }
    }
}

// One more of the kind of this answer.
pub fn count(kinds: &mut [u64; 193], a: Answer) {
    let k = a.kind();
    kinds[k] = kinds[k].saturating_add(1);
}

fn print_kind(rt: &impl Print, kind: u64) -> io::Result<()> {
    if kind < 129 {
        print!(rt; "accepted, levels {kind}")
    } else {
        print!(rt; "refused by {}", (kind - 129) / 2)?;
        if kind % 2 == 0 {
            print!(rt; " below the finest level")?;
        }
        Ok(())
    }
}

fn print_line(rt: &impl Print, kind: u64, count: u64) -> io::Result<()> {
    print_kind(rt, kind)?;
    println!(rt; ": {count}")
}

// A line for each kind that occurs.
pub fn print(rt: &impl Print, kinds: &[u64; 193]) -> io::Result<()> {
    for (kind, &count) in kinds.iter().enumerate() {
        if count > 0 {
            print_line(rt, kind as u64, count)?;
        }
    }
    Ok(())
}

// The last line of a list: how many calls there are, what they are called, and how many differ.
pub fn print_total(rt: &impl Print, calls: u64, name: &[u8], differences: u64) -> io::Result<()> {
    print!(rt; "{calls}")?;
    rt.write_all(name)?;
    println!(rt; ", {differences} differences")
}
