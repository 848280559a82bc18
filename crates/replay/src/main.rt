// Replays lists of calls with the Rust's answers, and writes how many there are of each kind and how many differ.
//
// `stdin` is the list of builds that `compare/run --list 8` writes: compare/README.md says what it draws, and
// compare/src/build/list.rs what stands where.
#![tactic(auto)]

mod builds;

use std::io;

fn main(rt: HostRuntime) -> io::Result<()> {
    builds::replay(&rt)
}
