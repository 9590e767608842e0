// The factor list of a byte text.
ghost use Rattle.std.specs.Prelude.{◌≡◌, length};
ghost use Rattle.words.specs.Decided.{decided_order};
ghost use Rattle.answer.specs.AfterCall.{content_after};
ghost use Rattle.answer.specs.Content.{TextRoom};
ghost use Rattle.letters.specs.Compared.{order_number};
ghost use Rattle.letters.specs.Keyed.{row};
ghost use Rattle.factors.specs.Results.{FactorsListed};
ghost use Rattle.factors.specs.Answers.{default_factors, factorization_answer, factors_in, factorization_ranked_answer};

use super::scan::{Ordered, Stretch};
use answer::{Accepted, Answer};
use checks::limits;
use letters::{Keyed, Order};

// Writes the starts of the factors, one a turn. A factor lies in the last scan's stretch while that holds one more copy of its period, else in that of
// a new scan.
fn list_factors(text: Ordered, out: &mut [u32]) -> Accepted
    requires { TextRoom (row text.letters) out.old }
    ensures content { FactorsListed (decided_order (order_number text.entry.order)) (row text.entry.letters) out.old out.new result }
{
    // Counted by hand: a place is for a factor, not for a letter, and the count is part of the answer.
    let mut count: usize = 0;
    let mut comparisons: u32 = 0;
    let mut start: usize = 0;
    // Before the first scan an empty stretch, in which no copy lies: an `Option` would be asked for twice at each factor, and is no plainer.
    let mut s = Stretch { period: 1, end: 0 };
    // A while loop: the step is a factor's length, not 1.
    while start < text.letters.len() {
        if s.end < start + s.period {
            s = text.scan(start);
            comparisons += s.comparisons(start, text.letters.len()) as u32;
        }
        out[count] = start as u32;
        count += 1;
        start += s.period;
    }
    Accepted {
        count: count as u32,
        comparisons,
    }
}

// The same, where the order is told apart before the loops: the compiler then makes them for each order. With a test of it in the loops they took
// up to 1.7 times as long.
fn list_in(text: Ordered, out: &mut [u32]) -> Accepted
    requires { TextRoom (row text.letters) out.old }
    ensures content { FactorsListed (decided_order (order_number text.entry.order)) (row text.entry.letters) out.old out.new result }
{
    let letters = text.letters;
    match text.order {
        order @ Order::Rising => list_factors(Ordered { letters, order }, out),
        order @ Order::Falling => list_factors(Ordered { letters, order }, out),
    }
}

// Writes the starts of the factors of `text`, in an order and with a rank table that order 2 looks at,
// into `out`; the count is their number, and the comparisons are those of Duval's scan.
// The order is a number, as C gives it.
pub fn factorization_ranked(text: &[u8], order: u32, table: &[u8], out: &mut [u32]) -> Answer
    ensures answer { result ≡ factorization_ranked_answer order table.now text.now (length out.old) }
    ensures content { out.new ≡ content_after result (factors_in order table.now text.now) out.old }
{
    if let Err(refusal) = checks::ranked_text(text.len(), order, table.len(), out.len()) {
        return Answer::from(refusal);
    }
    let keys = letters::rank_table(order, table);
    let text = Ordered {
        letters: Keyed { text, keys: &keys },
        order: Order::numbered(letters::direction(order)),
    };
    Answer {
        outcome: Ok(list_in(text, out)),
    }
}

// Writes the starts of the factors of `text`, in the default order, into `out`; the count is their
// number, and the comparisons are those of Duval's scan. A call of its own: C calls it by its name.
pub fn factorization(text: &[u8], out: &mut [u32]) -> Answer
    ensures answer { result ≡ factorization_answer text.now (length out.old) }
    ensures content { out.new ≡ content_after result (default_factors text.now) out.old }
{
    let table = letters::built_in::default_table();
    factorization_ranked(text, limits::RANKED, &table, out)
}
