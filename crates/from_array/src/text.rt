// A text that has a given array (document 01's judge). Contracts cite `specs/Answers.antt` and the definitions of `words`. Nothing is assumed.
ghost use Rattle.std.specs.Prelude.{◌≡◌, length};
ghost use Rattle.words.specs.ValidArray.{text_for};
ghost use Rattle.answer.specs.AfterCall.{content_after};
ghost use Rattle.from_array.specs.Answers.{reconstruct_answer};

use super::spans::Spans;
use answer::Answer;

impl Spans<'_> {
    // The letters. Until a position's turn comes, its place holds the number of earlier positions whose
    // span holds it, once the innermost of them had its turn.
    #[tactic(auto, using(crate::proofs::Filling::depth_small, crate::proofs::Filling::letter_small))]
    fn write_letters(self, text: &mut [u32])
        requires places { length text.old ≡ length self.array.now }
        ensures content { text.new ≡ text_for self.entry.array.now }
    {
        text.fill(0);
        let n = self.array.len();
        for i in 0..n {
            let depth = text[i];
            self.mark(text, i, depth + 1);
            let left = n - self.end_of(i);
            text[i] = depth + (left as u32);
        }
    }
}

// Writes the text that has `array`; the count is the number of its letters.
pub fn reconstruct(array: &[u32], text: &mut [u32]) -> Answer
    ensures answer { result ≡ reconstruct_answer array.now (length text.old) }
    ensures content { text.new ≡ content_after result (text_for array.now) text.old }
{
    if let Err(refusal) = checks::text(array.len(), text.len()) {
        return Answer::from(refusal);
    }
    let answer = valid_array::check(array);
    if let Ok(_) = answer.outcome {
        Spans { array }.write_letters(&mut text[..array.len()]);
    }
    answer
}
