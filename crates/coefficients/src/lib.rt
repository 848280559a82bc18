// The values of a matrix, taken from the entries of an image, and question 10: those of mirrored entries agree.
#![tactic(auto)]

pub mod mirrors;
pub mod values;

pub use mirrors::{mirrors_agree, take_faces};
pub use values::{Entries, pick_given, update, update_given};
