// What a build leaves passes the index check (proofs/). There is no code here.
#![tactic(auto)]
