// mod.rs: the calls of the solver.
#![tactic(auto)]

pub mod building;
pub mod counting;
pub mod solving;
pub mod updating;

pub use building::{new, new_with_face_weights};
pub use counting::statistics;
pub use solver::MultigridLevelStatistics;
pub use solving::solve;
pub use updating::update_values;
