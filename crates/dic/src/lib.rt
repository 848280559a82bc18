// The diagonal of the incomplete factor, and one DIC sweep.
#![tactic(auto)]

pub mod dic;
pub mod sweep;

pub use dic::update_dic_diagonal;
pub use sweep::dic_sweep;
