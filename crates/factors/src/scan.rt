// Duval's scan of a byte text, as `specs/Duval.antt` has it step by step.
ghost use Rattle.std.specs.Prelude.{◌≡◌, ℕ, ◌<◌, length, get_or};
ghost use Rattle.words.specs.Decided.{decided_order};
ghost use Rattle.letters.specs.Compared.{comparison_of, order_number};
ghost use Rattle.letters.specs.Keyed.{row};
ghost use Rattle.factors.specs.Duval.{scan_of};
ghost use Rattle.factors.specs.DuvalSteps.{stretch_of, comparisons_of, Bounded};

use letters::{Keyed, Order};
use std::cmp::Ordering;

// What a scan found: from its start up to `end` the text repeats its first `period` letters.
#[derive(Clone, Copy)]
pub struct Stretch {
    pub period: usize,
    pub end: usize,
}

impl Stretch {
    // The letter comparisons of the scan from `start` that found it in a text of n letters: one for each letter behind the first, up to the one that
    // stopped it; at the end of the text there is none.
    pub(crate) fn comparisons(self, start: usize, n: usize) -> usize
        requires { Bounded n start self }
        ensures count { result ≡ comparisons_of n start self }
    {
        self.end.min(n - 1) - start
    }
}

// A text by the ranks of a table, and the order that its letters are compared in.
#[derive(Clone, Copy)]
pub(crate) struct Ordered<'a> {
    pub(crate) letters: Keyed<'a>,
    pub(crate) order: Order,
}

impl Ordered<'_> {
    // How the letters at i and j compare. No method of `Keyed`, which is public: public functions have no `requires`.
    pub(crate) fn compare(self, i: usize, j: usize) -> Ordering
        requires first { i < length (row self.letters) }
        requires second { j < length (row self.letters) }
        ensures answer { result ≡ comparison_of ((decided_order (order_number self.entry.order)).compare (get_or (row self.entry.letters) i 0) (get_or (row self.entry.letters) j 0)) }
    {
        let Keyed { text, keys } = self.letters;
        self.order.compare_ranks(keys, text[i], text[j])
    }

    // The scan from `start` up to a smaller letter or the end of the text.
    pub(crate) fn scan(self, start: usize) -> Stretch
        requires { start < length (row self.letters) }
        ensures bounded { Bounded (length (row self.entry.letters)) start result }
        ensures stretch { (asked : ℕ) → result ≡ stretch_of (scan_of (decided_order (order_number self.entry.order)) 0 (row self.entry.letters) start asked) }
    {
        let mut period: usize = 1;
        for end in start + 1..self.letters.len() {
            match self.compare(end, end - period) {
                Ordering::Less => return Stretch { period, end },
                Ordering::Equal => {}
                Ordering::Greater => period = end + 1 - start,
            }
        }
        Stretch {
            period,
            end: self.letters.len(),
        }
    }
}
