// Lists of calls in which updates are accepted and refused and the solution changes: on one cell, and on a ring of four cells with two
// levels (specs/, proofs/). There is no code here.
#![tactic(auto)]
