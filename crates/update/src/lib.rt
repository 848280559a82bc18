// New values for the levels of a hierarchy: questions 31 and 10, the new image in a shadow, and its copy.
#![tactic(auto)]

pub mod questions;
pub mod refresh;
pub mod shadow;

pub use refresh::update;
