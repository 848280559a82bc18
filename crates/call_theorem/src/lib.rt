// Theorems about the five calls, by their contracts alone: refreshed beside fresh, no answer depends on scratch, the work of a solve.
// Definitions (specs/) and laws (proofs/). There is no code here.
#![tactic(auto)]
