// What follows from the rules: the laws behind the three demands, in proofs/. There is no code here.
#![tactic(auto)]
