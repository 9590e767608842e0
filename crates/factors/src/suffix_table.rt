// The Lyndon suffix table of a byte text (document 000's LYNDONSUFFIXTABLE).
ghost use Rattle.std.specs.Prelude.{◌≡◌, ◌<◌, length};
ghost use Rattle.words.specs.Letters.{order_of};
ghost use Rattle.answer.specs.AfterCall.{content_after};
ghost use Rattle.answer.specs.Content.{TextRoom};
ghost use Rattle.letters.specs.Compared.{order_number};
ghost use Rattle.letters.specs.Keyed.{row};
ghost use Rattle.factors.specs.Results.{AllTabled, Startable, TableFilled};
ghost use Rattle.factors.specs.Answers.{default_suffix_table, suffix_table_answer, suffix_table_in, suffix_table_ranked_answer};

use super::scan::{Ordered, Stretch};
use answer::Answer;
use checks::limits;
use letters::{Keyed, Order};
use std::cmp::Ordering;

// The scan from `start`, which writes the entry of each position that it reads: behind a greater letter the longest Lyndon word is all that
// was read, and behind an equal one it is that of the copy before.
// The loop of `scan` again, with its entries: with the step in a function of both it took a quarter longer on random bytes.
fn fill(text: Ordered, start: usize, out: &mut [u32]) -> Stretch
    requires text_room { TextRoom (row text.letters) out.old }
    requires start_in_bounds { start < length (row text.letters) }
    requires startable { Startable (order_of (order_number text.order)) (row text.letters) out.old start }
    ensures content { TableFilled (order_of (order_number text.entry.order)) (row text.entry.letters) out.old out.new start result }
{
    let mut period: usize = 1;
    out[start] = 1;
    for end in start + 1..text.letters.len() {
        match text.compare(end, end - period) {
            Ordering::Less => return Stretch { period, end },
            Ordering::Equal => out[end] = out[end - period],
            Ordering::Greater => {
                period = end + 1 - start;
                out[end] = period as u32;
            }
        }
    }
    Stretch {
        period,
        end: text.letters.len(),
    }
}

// Writes the whole table, factor by factor. The loop of `list_factors` again, round `fill`: a function of both would take the scan as a closure that
// writes, and is no plainer.
fn fill_table(text: Ordered, out: &mut [u32])
    requires { TextRoom (row text.letters) out.old }
    ensures content { AllTabled (order_of (order_number text.entry.order)) (row text.entry.letters) out.old out.new }
{
    let mut start: usize = 0;
    // An empty stretch before the first scan, as in `list_factors`.
    let mut s = Stretch { period: 1, end: 0 };
    // A while loop: the step is a factor's length, not 1.
    while start < text.letters.len() {
        if s.end < start + s.period {
            s = fill(text, start, out);
        }
        start += s.period;
    }
}

// The same, where the order is told apart before the loops, as `list_in` does it: up to 1.3 times as long otherwise.
fn fill_in(text: Ordered, out: &mut [u32])
    requires { TextRoom (row text.letters) out.old }
    ensures content { AllTabled (order_of (order_number text.entry.order)) (row text.entry.letters) out.old out.new }
{
    let letters = text.letters;
    match text.order {
        order @ Order::Rising => fill_table(Ordered { letters, order }, out),
        order @ Order::Falling => fill_table(Ordered { letters, order }, out),
    }
}

// Writes the Lyndon suffix table of `text`, in an order and with a rank table that order 2 looks at,
// into `out`; the count is the number of letters.
// The order is a number, as C gives it.
pub fn suffix_table_ranked(text: &[u8], order: u32, table: &[u8], out: &mut [u32]) -> Answer
    ensures answer { result ≡ suffix_table_ranked_answer order table.now text.now (length out.old) }
    ensures content { out.new ≡ content_after result (suffix_table_in order table.now text.now) out.old }
{
    let n = text.len();
    if let Err(refusal) = checks::ranked_text(n, order, table.len(), out.len()) {
        return Answer::from(refusal);
    }
    let keys = letters::rank_table(order, table);
    let text = Ordered {
        letters: Keyed { text, keys: &keys },
        order: Order::numbered(letters::direction(order)),
    };
    fill_in(text, out);
    answer::accept(n as u32)
}

// Writes the Lyndon suffix table of `text`, in the default order, into `out`; the count is the number of
// letters. A call of its own: C calls it by its name.
pub fn suffix_table(text: &[u8], out: &mut [u32]) -> Answer
    ensures answer { result ≡ suffix_table_answer text.now (length out.old) }
    ensures content { out.new ≡ content_after result (default_suffix_table text.now) out.old }
{
    let table = letters::built_in::default_table();
    suffix_table_ranked(text, limits::RANKED, &table, out)
}
