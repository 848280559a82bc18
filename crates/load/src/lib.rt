// The load of a seed: a box of cells whose faces take conductances from the seed's draws, as a matrix in compressed rows.
#![tactic(auto)]

pub mod cells;
pub mod drawing;
pub mod laying;
pub mod loading;
