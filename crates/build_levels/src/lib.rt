// The level loop of the build: from a level to the next one's matrix, until the last.
#![tactic(auto)]

pub mod descent;
pub mod growing;

pub use growing::grow;
