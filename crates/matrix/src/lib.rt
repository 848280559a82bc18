// The symmetric face-addressed matrix of a level: its product, its residual and its row sums.
#![tactic(auto)]

pub mod matrix;
pub mod residual;
pub mod row_sums;
mod spread;

pub use matrix::{SymmetricMatrix, apply};
pub use row_sums::row_sums_into;
