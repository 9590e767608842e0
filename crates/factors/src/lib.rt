// What stands on the Lyndon words of a byte text: the factor list and the Lyndon suffix table, each in
// the default order and in an order with a rank table, and the test whether a text is a Lyndon word. Public calls with no `requires`.
//
// A text and the buffer for what is found stand side by side, and not in a struct: each method of one would also have to ensure that the
// reference to the buffer stays the same. Contracts cite `specs/Answers.antt` and the definitions of `words`. Nothing is assumed.
#![tactic(auto)]

pub mod factorization;
pub mod lyndon;
mod scan;
pub mod suffix_table;
