// hierarchy.rs over lists: the levels, their refresh and the build that a buyer reads (specs/). There is no code here.
#![tactic(auto)]
