// A whole Matrix Market text, read into an MX record (specs/File.antt). 38, 39, 1 and 9 are asked in the order of document 02; 9 also behind
// the size line, of the slices that are lent for the entries, since without these a repeated entry is not found.
#![tactic(auto)]

pub mod entries;
pub mod file;
pub mod head;
pub mod record;

pub use file::read_matrix_file;
