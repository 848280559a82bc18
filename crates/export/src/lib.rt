// Controls and answers as they cross to C, as structs by value; and controls as numbers, for programs.
#![tactic(auto)]

pub mod controls;
pub mod reading;
pub mod structs;
pub mod telling;

pub use controls::{options_of, residual_norm_of, smoother_of};
pub use reading::{read_handle, read_limits, read_options};
pub use structs::{AnswerForC, BuiltForC, CountForC, HierarchyForC, OptionsForC, ReportForC};
pub use telling::{default_options, tell_built, tell_counted, tell_solved, tell_updated};
