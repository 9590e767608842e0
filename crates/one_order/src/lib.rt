// Factor lists and arrays that were made in one order (document 02, E12): theorems, in specs/. There is no code to run.
#![tactic(auto)]
