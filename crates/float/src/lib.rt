// The methods of f64 and u64 that the solver calls, as functions: finiteness, extremes, saturating sums and products, the square root.
#![tactic(auto)]

pub mod float;
pub mod root;
pub mod saturating;

pub use float::{abs, is_finite, is_positive, max_num, of_bits, square, to_bits};
pub use root::sqrt;
pub use saturating::{saturating_add, saturating_mul};
