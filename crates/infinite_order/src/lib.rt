// The infinite order of byte texts, in rising order of letters: two texts compared, and the prefixes of a Lyndon word sorted. Public calls with no
// `requires`.
//
// Contracts cite `specs/Answers.antt` and the definitions of `words`. Nothing is assumed.
#![tactic(auto)]

pub mod compare;
pub mod prefix_permutation;
