// Question 19: the places and sizes of levels that pass it. Its definition is in specs/.
mod place;
mod scratch;

pub use place::{coupled_at, word_at};
pub use scratch::{cycle_start, scratch_end, scratch_start, shadow_start};

// Where the walk over levels and rows stopped.
#[derive(Clone, Copy)]
pub struct Stop {
    pub level: u64,
    pub row: u64,
}
