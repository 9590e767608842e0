// The Lyndon array of a text of bytes. In every order letters are compared by their keys (crate `letters`): their own numbers, these turned round, or the
// ranks of a table.
ghost use Rattle.std.specs.Prelude.{◌≡◌, length};
ghost use Rattle.array.specs.Calls.{array_answer, array_ranked_answer, array_in};
ghost use Rattle.answer.specs.AfterCall.{content_after};
ghost use Rattle.words.specs.Decided.{decided_order};
ghost use Rattle.words.specs.Compute.LyndonArray.{array_of};

use crate::joined;
use answer::Answer;
use letters::Keyed;

// The Lyndon array of a text of bytes, in order 0 (rising) or 1 (falling): for every position the length of the longest Lyndon word
// that starts there. Refused by document 01's checks 1, 2, 3 and 4.
// Not a call of the next one with no table: that took up to 15 % longer, and a fifth on one letter.
// The order is a number, as C gives it.
pub fn lyndon_array(text: &[u8], order: u32, out: &mut [u32]) -> Answer
    ensures answer { result ≡ array_answer (length text.now) order (length out.old) }
    ensures content { out.new ≡ content_after result (array_of (decided_order order) text.now) out.old }
{
    if let Err(refusal) = checks::ordered_text(text.len(), order, out.len()) {
        return Answer::from(refusal);
    }
    // Orders 0 and 1 look at no table.
    let own = letters::key_table(order, &[]);
    joined::compute(Keyed { text, keys: &own }, &mut out[..text.len()])
}

// The same in order 0, 1 or 2, which compares letters by the ranks of a table; orders 0 and 1 do not look at it. Refused by document 02's
// checks 1, 2, 3, 16 and 4.
// The order is a number, as C gives it.
pub fn lyndon_array_ranked(text: &[u8], order: u32, table: &[u8], out: &mut [u32]) -> Answer
    ensures answer { result ≡ array_ranked_answer (length text.now) order (length table.now) (length out.old) }
    ensures content { out.new ≡ content_after result (array_in order table.now text.now) out.old }
{
    if let Err(refusal) = checks::ranked_text(text.len(), order, table.len(), out.len()) {
        return Answer::from(refusal);
    }
    let keys = letters::key_table(order, table);
    joined::compute(Keyed { text, keys: &keys }, &mut out[..text.len()])
}
