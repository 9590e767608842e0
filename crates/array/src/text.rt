// The texts of the join loop: bytes by their keys, and 32-bit letters in an order. The loop asks them nothing but how many letters they have and how two
// of them compare.
ghost use Rattle.std.specs.Prelude.{◌≡◌, List, ℕ, ◌<◌, length, get_or};
ghost use Rattle.words.specs.Decided.{decided_order};
ghost use Rattle.letters.specs.Compared.{comparison_of, order_number};
ghost use Rattle.letters.specs.Keyed.{row, letters_differ};

use letters::{Keyed, Order};
use std::cmp::Ordering;

// A text whose letters the join loop compares. That positions lie inside it is a clause of each method: a type of such positions would hold the length
// too, and be no plainer.
pub(crate) trait Text: Copy {
    // Its letters as numbers.
    ghost values: { Self → List ℕ };

    // The order that they are compared in, 0 (rising) or 1 (falling).
    ghost order: { Self → ℕ };

    // The number of its letters.
    fn len(self) -> usize
        ensures length { result ≡ length (values self) };

    // The letters at i and j differ.
    fn differ(self, i: usize, j: usize) -> bool
        requires first { i < length (values self) }
        requires second { j < length (values self) }
        ensures answer { result ≡ letters_differ (values self) i j };

    // How the letter at i compares with the one at j.
    fn compare(self, i: usize, j: usize) -> Ordering
        requires first { i < length (values self) }
        requires second { j < length (values self) }
        ensures answer { result ≡ comparison_of ((decided_order (order self)).compare (get_or (values self) i 0) (get_or (values self) j 0)) };
}

// In every order the smaller key is the smaller letter. Letters at positions are no matter of `Keyed` itself, which is public: public functions have no
// `requires`.
impl Text for Keyed<'_> {
    ghost values = { row };

    ghost order = { λ t. 0 };

    fn len(self) -> usize {
        Keyed::len(self)
    }

    fn differ(self, i: usize, j: usize) -> bool {
        letters::differ(self.keys, self.text[i], self.text[j])
    }

    fn compare(self, i: usize, j: usize) -> Ordering {
        Order::Rising.compare_ranks(self.keys, self.text[i], self.text[j])
    }
}

// Letters of 32 bits in an order.
#[derive(Clone, Copy)]
pub(crate) struct Numbers<'a> {
    pub(crate) text: &'a [u32],
    pub(crate) order: Order,
}

impl Text for Numbers<'_> {
    ghost values = { λ t. t.text.now };

    ghost order = { λ t. order_number t.order };

    fn len(self) -> usize {
        self.text.len()
    }

    fn differ(self, i: usize, j: usize) -> bool {
        self.text[i] != self.text[j]
    }

    fn compare(self, i: usize, j: usize) -> Ordering {
        self.order.compare(self.text[i], self.text[j])
    }
}
