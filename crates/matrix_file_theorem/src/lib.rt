// Reading a matrix file that was written gives the matrix: theorems over definitions, in proofs/. There is no code.
#![tactic(auto)]
