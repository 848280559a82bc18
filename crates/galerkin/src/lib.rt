// The values of the Galerkin product and the weights of the next level; and the product over whole numbers, exactly.
#![tactic(auto)]

pub mod exact;
pub mod galerkin;
pub mod weights;

pub use galerkin::{sum_entries, sum_given, symmetrize};
pub use weights::{CoarseRows, restrict_weights};
