// The records of a problem file: from bytes to numbers and back. A record is a mark of two letters and what follows it, all numbers with
// their least byte first (specs/Format.antt). Bytes that are no such record are refused by 32, and nothing is written. An output that is too short for a record is refused by 9 (specs/Writing.antt).
#![tactic(auto)]

pub mod bytes;
pub mod controls;
pub mod marks;
pub mod matrix;
pub mod problem;
pub mod values;
pub mod writing;

pub use controls::read_controls;
pub use marks::{Mark, is_marked};
pub use matrix::{MatrixSizes, read_matrix};
pub use problem::read_solve;
use refusal::Refusal;
pub use values::read_values;
pub use writing::{write_controls, write_matrix, write_solve, write_values};

pub const BAD_RECORD: Refusal = Refusal {
    number: 32,
    level: 0,
    row: 0,
};
