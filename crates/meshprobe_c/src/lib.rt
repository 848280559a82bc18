// For the comparison with the Rust, never shipped: numbers, vectors, controls and what is done on patterns, exported for C and the Rust.
// Each export is one call of a function of the solver, and states the clauses of what it calls. Numbers and slices are all that crosses:
// where the function called takes a struct, its fields come one by one, however many they are.
// compare/src/boundary.rs and compare/probe.h declare the same functions.
#![tactic(auto)]

mod arrays;
mod coarsening;
mod controls;
mod numbers;
mod topology;
mod vectors;
