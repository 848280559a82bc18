// Lent stores: indices, fills, copies and single floats; and the laws of loops and regions that every other crate cites.
#![tactic(auto)]

pub mod held;
pub mod store;

pub use held::{float_at, float_near, held_at, put};
pub use store::{copy, fill, index_at, load, wide, zero_floats, zero_words};
