// Document 01's questions 1 to 5, of the arrays and the weights that a caller lends.
#![tactic(auto)]

pub mod csr;
pub mod weights;

pub use csr::check_matrix;
pub use weights::check_weights;
