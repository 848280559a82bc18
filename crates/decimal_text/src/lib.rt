// Decimal numbers as text: what a field of bytes says, and how a number is written.
#![tactic(auto)]

pub mod field;
pub mod figures;
