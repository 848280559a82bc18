// Matrix Market text: its lines and fields, and its entries.
#![tactic(auto)]

pub mod entries;
pub mod lines;
pub mod placed;
