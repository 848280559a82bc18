// matrix.rs: the values of a matrix, taken from the entries of an image.
mod entries;

pub use entries::{Entries, pick_given, update, update_given};
