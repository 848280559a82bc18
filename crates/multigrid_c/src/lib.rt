// The calls of `multigrid` for C: numbers, slices as a pointer and a length, and structs by value. Each reads its structs, makes one call
// and tells the answer; none has a precondition.
// include/multigrid.h and rust/src/calls.rs declare the same functions.
#![tactic(auto)]

mod calls;
mod loads;
mod sizes;
