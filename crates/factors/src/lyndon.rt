// The test whether a byte text is a Lyndon word.
ghost use Rattle.std.specs.Prelude.{◌≡◌};
ghost use Rattle.factors.specs.LyndonTest.{lyndon_within};

use super::scan::Ordered;
use checks::limits;
use letters::{Keyed, Order};

// Whether `text` is a Lyndon word in rising order, by one scan that only reads; false for a text that
// is longer than the calls take.
pub fn is_lyndon(text: &[u8]) -> bool
    ensures answer { result ≡ lyndon_within text.now }
{
    if text.is_empty() || limits::MAX_LENGTH < text.len() {
        return false;
    }
    let keys = letters::built_in::table(0);
    let ordered = Ordered {
        letters: Keyed { text, keys: &keys },
        order: Order::Rising,
    };
    ordered.scan(0).period == text.len()
}
