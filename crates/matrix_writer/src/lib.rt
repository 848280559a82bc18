// An MX record to the text of a Matrix Market file, symmetric or general (specs/Writing.antt, specs/Text.antt).
#![tactic(auto)]

pub mod arrays;
pub mod lines;
pub mod questions;
pub mod writer;

pub use writer::write_matrix_file;
