// What `row_sums_into` makes of a matrix of whole numbers, and so of a load; and that all levels that are built from a load are exact Galerkin
// products: theorems over definitions, in proofs/. There is no code.
#![tactic(auto)]
