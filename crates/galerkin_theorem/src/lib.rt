// What the coarse values are: half plus half, and the Galerkin theorem: definitions (specs/) and laws (proofs/).
// There is no code here.
#![tactic(auto)]
