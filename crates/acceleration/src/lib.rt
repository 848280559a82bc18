// Restarted flexible GCR: a new direction made orthogonal to the stored ones, over its norm, and the step along it.
#![tactic(auto)]

pub mod acceleration;
pub mod advance;
pub mod directions;
pub mod normalize;
pub mod workspace;

pub use acceleration::correct;
pub use workspace::{GcrWorkspace, PairPlace};
