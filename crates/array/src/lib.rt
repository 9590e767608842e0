// The Lyndon array of a text of bytes (`bytes`) or of 32-bit letters (`numbers`), in either order, of bytes also by a table of ranks, and the list of
// all runs of a text of bytes (`runs`), by the bytes or by such a table.
//
// The arrays are made by the join loop of document 002 (LONGESTLYNDON) from the last position to the first; while it runs, the last place
// of a factor remembers how far the factor agrees with what follows it and with its last part, and comparisons start there. The runs are
// found in the same loop, once in each order (document 002, RUNS), each at its rightmost root; how far two suffixes agree behind the factors
// compared is measured by the crate `agreement`. Contracts cite `specs/Calls.antt` and the definitions of the crate `words`. Nothing is assumed.
#![tactic(auto)]

pub mod bytes;
mod factor;
mod joined;
pub mod numbers;
pub mod runs;
mod text;
