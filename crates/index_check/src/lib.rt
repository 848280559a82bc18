// Question 19, the index check that solve, update and statistics make before they read a store.
#![tactic(auto)]

pub mod check;
pub mod head;
pub mod row;
pub mod sound;
pub mod tables;

pub use sound::{cycle_start, shadow_start};
