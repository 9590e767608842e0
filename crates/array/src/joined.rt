// The join loop of document 002 (LONGESTLYNDON), and the array that it makes.
ghost use Rattle.std.specs.Prelude.{◌≡◌, ◌≤◌, length, min};
ghost use Rattle.answer.specs.Answers.{accepted_with};
ghost use Rattle.answer.specs.Limits.{max_length};
ghost use Rattle.array.specs.Core.Join.{JoinReady, JoinedTo};
ghost use Rattle.array.specs.Core.Place.{StoreReady, stored_at};
ghost use Rattle.words.specs.Compute.LyndonArray.{array_of};
ghost use Rattle.words.specs.Decided.{decided_order};

use crate::factor;
use crate::factor::Factor;
use crate::text::Text;
use answer::Answer;
use std::cmp::Ordering;

// The word from a position was joined up to `end`: it agrees with what follows on `agreed` letters and with its last part on `part`;
// `stop` is the comparison that ended the joining, `Greater` at the end of the text: what follows is the same there, so an `Option` is no plainer.
#[derive(Clone, Copy)]
pub struct Joined {
    pub end: usize,
    pub agreed: usize,
    pub part: usize,
    pub stop: Ordering,
}

impl Joined {
    // Stores the length of the word from i, and at its last place how far it agrees with what follows and with its last part.
    pub(crate) fn store(self, buf: &mut [u32], i: usize)
        requires { StoreReady buf.old i self.end (min self.agreed self.part) }
        ensures content { buf.new ≡ stored_at buf.old i self.end (min self.agreed self.part) }
    {
        let length = self.end - i;
        buf[i] = length as u32;
        if 1 < length {
            buf[self.end - 1] = self.agreed.min(self.part) as u32;
        }
    }
}

// Joins to the letter at i the factors after it, as long as the word so far is smaller than the next factor.
pub(crate) fn join<T: Text>(text: T, buf: &mut [u32], i: usize) -> Joined
    requires { JoinReady (T.order text) (T.values text) buf.old i }
    ensures content { JoinedTo (T.order text) (T.values text) buf.old buf.new i result }
{
    let mut end = i + 1;
    let mut agreed: usize = 0;
    let mut part: usize = 0;
    // A while loop: the step is the length of the factor joined, not 1.
    while end < text.len() {
        let factor = Factor::at(buf, end);
        let word = factor.start - i;
        // Compares the word so far with the next factor, from the letters that are known to agree: document 01 names this form. Where the word
        // ends first, less is settled, and the loop goes on only to measure how far they agree.
        let stop = loop {
            if factor.length <= agreed {
                if word == factor.length {
                    break Ordering::Equal;
                }
                // The factor is a proper prefix of the word.
                break Ordering::Greater;
            }
            if text.differ(i + agreed, factor.start + agreed) {
                if word <= agreed {
                    break Ordering::Less;
                }
                break text.compare(i + agreed, factor.start + agreed);
            }
            agreed += 1;
            if agreed == word {
                if let Some(settled) = factor.settled(buf, word) {
                    agreed = settled;
                    break Ordering::Less;
                }
            }
        };
        let Ordering::Less = stop else {
            return Joined {
                end,
                agreed,
                part,
                stop,
            };
        };
        factor.restore(buf);
        end += factor.length;
        part = agreed;
        agreed = agreed.min(factor.known);
    }
    Joined {
        end,
        agreed,
        part,
        stop: Ordering::Greater,
    }
}

// Writes the Lyndon array of the text into a buffer of its length: joins at every position from the last to the first, and then gives the last
// places their entries back. Accepts with the number of letters.
#[tactic(auto, using(crate::proofs::Filling::filling))]
pub(crate) fn compute<T: Text>(text: T, buf: &mut [u32]) -> Answer
    requires size { length buf.old ≡ length (T.values text) }
    requires short { length (T.values text) ≤ max_length }
    ensures answer { result ≡ accepted_with (length (T.values text)) }
    ensures content { buf.new ≡ array_of (decided_order (T.order text)) (T.values text) }
{
    for i in (0..text.len()).rev() {
        join(text, buf, i).store(buf, i);
    }
    factor::restore_all(buf);
    answer::accept(text.len() as u32)
}
