// The check of an array alone, a public call with no `requires`: whether some text within the limits of length has it.
//
// Contracts cite `specs/Answers.antt`. What a verdict says of texts over any ordered letters stands in `words`, file `ArrayTheorems`.
// Nothing is assumed.
#![tactic(auto)]

mod entries;
mod spans;
mod verdict;

ghost use Rattle.std.specs.Prelude.{◌≡◌, OnOk};
ghost use Rattle.words.specs.ValidArray.{Valid};
ghost use Rattle.valid_array.specs.Answers.{check_answer};

use answer::Answer;

// Document 01's checks 1, 2, 6, 7 and 8: accepted, with the number of entries, where there are 1 to 1,048,576 and the array is valid.
pub fn check(array: &[u32]) -> Answer
    ensures answer { result ≡ check_answer array.now }
    ensures valid { OnOk result.outcome (Valid array.now) }
{
    if let Err(refusal) = checks::length(array.len()) {
        return Answer::from(refusal);
    }
    Answer {
        outcome: verdict::verdict(array),
    }
}
