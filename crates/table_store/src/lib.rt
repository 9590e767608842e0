// A store of rank tables for two groups (document 02, E9): two built-in tables, which nobody changes, and three tables of each group's own.
// A store is plain data, which C hands on by value from call to call; whatever bytes it holds, no call relies on them. Nothing is assumed.
#![tactic(auto)]

pub mod store;
