// Matrix Market files for C: the text of an MX record, and the record of a text. Numbers, slices as a pointer and a length, and structs by value; no
// call has a precondition. include/multigrid.h and rust/src/calls.rs declare the same functions.
#![tactic(auto)]

mod files;
