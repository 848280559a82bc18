// The Galerkin theorem of a whole hierarchy: every level of an accepted build is exactly the Galerkin product of the level above.
// Definitions (specs/) and laws (proofs/). There is no code here.
#![tactic(auto)]
