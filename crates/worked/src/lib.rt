// The examples that document 01 works by hand and asks to be proved, K1 to K12: one table, one joint statement, in specs/Table.antt.
// There is no code to run.
#![tactic(auto)]
