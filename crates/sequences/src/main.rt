// Replays sequences of calls with the Rust's answers: builds, and updates and solves of what they built. Writes how many calls there are
// of each kind and how many differ.
//
// `stdin` is the list of sequences that `compare/run --list-sequences 8` writes: compare/README.md says what it draws, and
// compare/src/sequence/list.rs what stands where.
#![tactic(auto)]

mod outcomes;
mod recall;
mod sequence;

use std::io;

fn main(rt: HostRuntime) -> io::Result<()> {
    sequence::replay(&rt)
}
