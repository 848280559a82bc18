// How many updates and solves there are of each kind of answer. Kinds are numbers, as recall::Told has them: the places of the counters
// and the order of the lines, into which an enum would be made for each use.
use lists::kinds;
use std::io;

// One more of a kind, as recall::Told has them.
pub fn count(kinds: &mut [u64; 98], kind: usize) {
    if let Some(count) = kinds.get_mut(kind) {
        *count = count.saturating_add(1);
    }
}

fn print_update(rt: &impl Print, kind: u64) -> io::Result<()> {
    if kind == 0 {
        print!(rt; "update accepted")
    } else {
        print!(rt; "update refused by {}", kind / 2)?;
        if kind % 2 == 1 {
            print!(rt; " below the finest level")?;
        }
        Ok(())
    }
}

fn print_solve(rt: &impl Print, kind: u64) -> io::Result<()> {
    match kind {
        64 => print!(rt; "solve converged at once"),
        65 => print!(rt; "solve converged"),
        66 => print!(rt; "solve used up its iterations"),
        _ => print!(rt; "solve refused by {}", kind.saturating_sub(66)),
    }
}

fn print_line(rt: &impl Print, kind: u64, count: u64) -> io::Result<()> {
    if kind < 64 {
        print_update(rt, kind)?;
    } else {
        print_solve(rt, kind)?;
    }
    println!(rt; ": {count}")
}

// A line for each kind that occurs.
pub fn print(rt: &impl Print, kinds: &[u64; 98]) -> io::Result<()> {
    for (kind, &count) in kinds.iter().enumerate() {
        if count > 0 {
            print_line(rt, kind as u64, count)?;
        }
    }
    Ok(())
}

// The last line: how many sequences and calls there are, and how many differ.
pub fn print_total(
    rt: &impl Print,
    sequences: u64,
    calls: u64,
    differences: u64,
) -> io::Result<()> {
    print!(rt; "{sequences} sequences, ")?;
    kinds::print_total(rt, calls, b" calls", differences)
}
