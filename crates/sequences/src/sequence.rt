// A list of sequences beside the Rust's answers.
use crate::{outcomes, recall};
use lists::stores::{Extent, Noise};
use lists::{Reader, Stores, reading};
use options::Handle;
use std::io;

// How many calls were made, and how often something differs.
#[derive(Clone, Copy)]
struct Tally {
    calls: u64,
    differences: u64,
}

// So many calls, and a difference unless something is the same.
fn counted(calls: u64, same: bool) -> Tally {
    Tally {
        calls,
        differences: u64::from(!same),
    }
}

fn sum(a: Tally, b: Tally) -> Tally {
    Tally {
        calls: float::saturating_add(a.calls, b.calls),
        differences: float::saturating_add(a.differences, b.differences),
    }
}

// So many calls, one after the other; with the last of them the text ends.
fn make_calls(
    input: &mut Reader,
    handle: Handle,
    stores: &mut Stores,
    counts: &mut [u64; 98],
) -> Tally {
    let mut tally = counted(0, true);
    for _ in 0..input.number() {
        let made = recall::call(input, handle, stores);
        outcomes::count(counts, made.kind);
        tally = sum(tally, counted(1, made.same));
    }
    sum(tally, counted(0, input.ends()))
}

// The next sequence of the list: a build, and calls with so much of each store as the build got. Where the build refuses there is nothing to
// call, and that is a difference. The stores are full of noise before.
fn next_sequence(
    rt: &impl Input,
    stores: &mut Stores,
    counts: &mut [u64; 98],
) -> io::Result<Tally> {
    let mut text = [0u8; 65536];
    let size = reading::record(rt, &mut text)?;
    let mut input = Reader::over(&text, size);
    stores.fill(Noise::LOUD);
    Ok(match lists::from_text(&mut input, stores) {
        Ok(handle) => make_calls(&mut input, handle, stores, counts),
        Err(_) => counted(0, false),
    })
}

fn report(rt: &impl Print, counts: &[u64; 98], sequences: u64, tally: Tally) -> io::Result<()> {
    outcomes::print(rt, counts)?;
    outcomes::print_total(rt, sequences, tally.calls, tally.differences)
}

// All sequences of the list: a line for each kind of answer, then how many there are and how often something differs.
pub fn replay(rt: &(impl Input + Print)) -> io::Result<()> {
    let sequences = reading::length(rt)?;
    // Zeros, which the first record's noise takes the place of: written out, since a function would hand over a copy.
    let mut stores = Stores {
        words: [0; 8192],
        floats: [0.0; 8192],
        statistics: [0; 640],
        lent: Extent::NONE,
        counters: 0,
    };
    let mut counts = [0u64; 98];
    let mut tally = counted(0, true);
    for _ in 0..sequences {
        tally = sum(tally, next_sequence(rt, &mut stores, &mut counts)?);
    }
    report(rt, &counts, sequences, tally)
}
