// What is claimed, one page for each subject, in specs/. There is no code here.
#![tactic(auto)]
