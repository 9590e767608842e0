// What can be said of an array alone: the right forest of every text that has it, and a text that
// has it. Each is a public call with no `requires`; both refuse an array that no text has, by the check of `valid_array`.
//
// Contracts cite `specs/Answers.antt` and the definitions of `words`. What they say of texts over any ordered letters stands in
// `specs/Theorems.antt`. Nothing is assumed.
#![tactic(auto)]

mod forest;
mod spans;
mod text;

pub use forest::right_forest;
pub use text::reconstruct;
