// The verdict on an array: its first fault, or that there is none.
// Contracts cite `specs/Answers.antt`. Nothing is assumed.
ghost use Rattle.std.specs.Prelude.{◌≡◌, ◌≤◌, length, OnOk};
ghost use Rattle.words.specs.ValidArray.{Valid};
ghost use Rattle.answer.specs.Limits.{max_length};
ghost use Rattle.valid_array.specs.Answers.{array_checked};

use super::entries::check_entries;
use super::spans::least_crossing;
use answer::{Accepted, Reason, Refused};

// Refusals 6 and 7 in one pass from the left, then refusal 8; accepted where the array is valid.
#[tactic(auto, using(crate::proofs::Verdicts::crossing_verdict, crate::proofs::Verdicts::fits_valid, crate::proofs::Verdicts::fits_verdict))]
pub(crate) fn verdict(array: &[u32]) -> Result<Accepted, Refused>
    requires { length array.now ≤ max_length }
    ensures answer { result ≡ (array_checked array.now).outcome }
    ensures valid { OnOk result (Valid array.now) }
{
    check_entries(array)?;
    if let Some(crossing) = least_crossing(array) {
        return Err(Refused {
            reason: Reason::CrossingSpans,
            position: crossing as u32,
        });
    }
    Ok(Accepted::uncompared(array.len() as u32))
}
