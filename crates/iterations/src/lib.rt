// The iterations of a solve, and one of them.
#![tactic(auto)]

pub mod iterating;
pub mod stepping;

pub use iterating::{Limits, iterate};
pub use stepping::{Regions, iteration, places};
