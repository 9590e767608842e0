// The Lyndon array of a text of 32-bit letters.
ghost use Rattle.std.specs.Prelude.{◌≡◌, length};
ghost use Rattle.array.specs.Calls.{array_answer};
ghost use Rattle.answer.specs.AfterCall.{content_after};
ghost use Rattle.words.specs.Decided.{decided_order};
ghost use Rattle.words.specs.Compute.LyndonArray.{array_of};

use crate::joined;
use crate::text::Numbers;
use answer::Answer;
use letters::Order;

// The Lyndon array of a text of 32-bit letters, in order 0 (rising) or 1 (falling): for every position the length of the longest Lyndon word
// that starts there. Refused by document 01's checks 1, 2, 3 and 4.
// What it shares with the array of bytes is `joined::compute`; C calls each by its name.
// The order is a number, as C gives it.
pub fn lyndon_array(text: &[u32], order: u32, out: &mut [u32]) -> Answer
    ensures answer { result ≡ array_answer (length text.now) order (length out.old) }
    ensures content { out.new ≡ content_after result (array_of (decided_order order) text.now) out.old }
{
    if let Err(refusal) = checks::ordered_text(text.len(), order, out.len()) {
        return Answer::from(refusal);
    }
    let order = Order::numbered(letters::direction(order));
    joined::compute(Numbers { text, order }, &mut out[..text.len()])
}
