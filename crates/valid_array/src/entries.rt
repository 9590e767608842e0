// The entries of an array, each by itself. Contracts cite `specs/Checked.antt` and `specs/Answers.antt`. Nothing is assumed.
ghost use Rattle.std.specs.Prelude.{◌≡◌, ◌≤◌, length, OnOk, IfErr};
ghost use Rattle.answer.specs.Limits.{max_length};
ghost use Rattle.answer.specs.Answers.{refused_by};
ghost use Rattle.valid_array.specs.Answers.{array_checked};
ghost use Rattle.valid_array.specs.Checked.{EntriesInRange};

use answer::{Reason, Refused};

// Refusals 6 and 7 in one pass from the left: the first entry that is 0 or too long. Position and entry are added in 64 bits.
#[tactic(auto, using(crate::proofs::Verdicts::zero_verdict, crate::proofs::Verdicts::long_verdict))]
pub(crate) fn check_entries(array: &[u32]) -> Result<(), Refused>
    requires { length array.now ≤ max_length }
    ensures in_range { OnOk result (EntriesInRange array.now) }
    ensures refusal { IfErr result (λ r. array_checked array.now ≡ refused_by r) }
{
    for (i, &entry) in array.iter().enumerate() {
        let position = i as u32;
        if entry == 0 {
            let reason = Reason::ZeroEntry;
            return Err(Refused { reason, position });
        }
        if array.len() < i + (entry as usize) {
            let reason = Reason::LongEntry;
            return Err(Refused { reason, position });
        }
    }
    Ok(())
}
