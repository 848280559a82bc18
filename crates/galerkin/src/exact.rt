// Whole numbers as floats, and the Galerkin product over whole numbers: definitions (specs/) and laws (proofs/).
// There is no code here.
