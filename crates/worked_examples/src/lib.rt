// The starred lines of the specification's worked examples: one table (specs/Table.antt), one theorem
// (proofs/Starred.antt). There is no code here.
#![tactic(auto)]
