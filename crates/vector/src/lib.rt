// Dot product, norm and finiteness of a region of the store.
#![tactic(auto)]

pub mod finite;
pub mod vector;

pub use finite::all_finite;
pub use vector::{dot, norm_l2};
