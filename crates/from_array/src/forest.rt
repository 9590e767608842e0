// The right forest of every text that has an array (document 01's right forest). Contracts cite
// `specs/Answers.antt` and the definitions of `words`. Nothing is assumed.
ghost use Rattle.std.specs.Prelude.{◌<◌, ◌≤◌, ◌≡◌, length};
ghost use Rattle.words.specs.ArrayForest.{first_for, past_for, forest_first, forest_past};
ghost use Rattle.answer.specs.Limits.{max_length};
ghost use Rattle.answer.specs.AfterCall.{content_after};
ghost use Rattle.from_array.specs.Answers.{right_forest_answer};
ghost use Rattle.answer.specs.Content.{Holds};

use super::spans::Spans;
use answer::Answer;

// Every position has itself.
fn write_own(first: &mut [u32])
    requires { length first.old ≤ max_length }
    ensures content { Holds (λ j. j) (length first.old) first.old first.new }
{
    for (k, place) in first.iter_mut().enumerate() {
        *place = k as u32;
    }
}

impl Spans<'_> {
    // FIRST: each position has the one whose span is its innermost, or itself.
    #[tactic(auto, using(crate::proofs::Filling::first_starts, crate::proofs::Filling::filling_ends))]
    fn write_first(self, first: &mut [u32])
        requires places { length first.old ≡ length self.array.now }
        ensures content { first.new ≡ forest_first self.entry.array.now }
    {
        write_own(first);
        for i in 0..self.array.len() {
            self.mark(first, i, i as u32);
        }
    }

    // What PAST has at `j`: the end of its span, or itself where FIRST has itself.
    fn past_at(self, first: u32, j: usize) -> u32
        requires j_in_bounds { j < length self.array.now }
        requires first_is { first ≡ first_for self.array.now j }
        ensures result { result ≡ past_for self.entry.array.now j }
    {
        let own = j as u32;
        if first == own {
            return own;
        }
        self.end_of(j) as u32
    }

    // PAST, from FIRST.
    #[tactic(auto, using(crate::proofs::Values::first_places, crate::proofs::Values::first_at, crate::proofs::Values::past_ends))]
    fn write_past(self, first: &[u32], past: &mut [u32])
        requires first_is { first.now ≡ forest_first self.array.now }
        requires places { length past.old ≡ length self.array.now }
        ensures content { past.new ≡ forest_past self.entry.array.now }
    {
        for (j, place) in past.iter_mut().enumerate() {
            *place = self.past_at(first[j], j);
        }
    }
}

// Writes FIRST and PAST of the right forest of every text that has `array`; the count is the number
// of entries.
pub fn right_forest(array: &[u32], first: &mut [u32], past: &mut [u32]) -> Answer
    ensures answer { result ≡ right_forest_answer array.now (length first.old) (length past.old) }
    ensures starts { first.new ≡ content_after result (forest_first array.now) first.old }
    ensures ends { past.new ≡ content_after result (forest_past array.now) past.old }
{
    if let Err(refusal) = checks::forest(array.len(), first.len(), past.len()) {
        return Answer::from(refusal);
    }
    let answer = valid_array::check(array);
    if let Ok(_) = answer.outcome {
        let spans = Spans { array };
        let first = &mut first[..array.len()];
        spans.write_first(first);
        spans.write_past(first, &mut past[..array.len()]);
    }
    answer
}
