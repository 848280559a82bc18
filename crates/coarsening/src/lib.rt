// The coarse matrix of a step of the build, and merged steps.
#![tactic(auto)]

pub mod coarsen;
pub mod merging;

pub use coarsen::{Held, Setup, Workspace, repair, step};
pub use merging::{Merging, merge};
