// Exports for the comparison with the Rust, never shipped: the float kernels, by numbers and slices only, since these are all that C and the
// Rust declare of them: a smoother and a norm come as numbers, and the fields of a struct one by one.
// compare/src/boundary.rs and compare/probe.h declare the same functions.
#![tactic(auto)]

mod corrections;
mod kernels;
mod measures;
mod smoothing;
mod terminals;
