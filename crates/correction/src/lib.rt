// What a cycle does with residuals and corrections: down to the aggregates, up from them, scaled and added.
#![tactic(auto)]

pub mod correction;
pub mod scaled;
pub mod scaling;
pub mod transfer;

pub use correction::{add_plain, subtract};
pub use scaled::add_scaled;
pub use scaling::correction_factor;
pub use transfer::{Aggregates, add_prolonged, prolong, restrict};
