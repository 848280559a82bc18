// A level of the build is laid at its place; the last level and its factor.
#![tactic(auto)]

pub mod coarsest;
pub mod laying;

pub use coarsest::{Growth, last};
pub use laying::{Frontier, choose, lay};
