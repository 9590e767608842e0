// BED lines and the line of a refusal, written at the start of a buffer. Each function returns how long they are.
// Contracts cite `specs/Bed.antt` and `specs/Refusal.antt`. Nothing is assumed.
#![tactic(auto)]

mod lines;
mod text;

ghost use Rattle.std.specs.Prelude.{length};
ghost use Rattle.answer.specs.Content.{Written};
ghost use Rattle.bed.specs.Bed.{lines_fitting};
ghost use Rattle.bed.specs.Refusal.{refusal_fitting};

use crate::lines::write_runs;
use crate::text::Text;
use fasta_record::bytes::LINE_END;
use fasta_record::name::MAX_NAME;

// The most digits of a 32-bit number, or of the number after it.
const MAX_DIGITS: usize = 10;

// The most bytes of a BED line: the name, three tabs, `p`, LF and three numbers.
pub const MAX_LINE: usize = MAX_NAME + 5 + 3 * MAX_DIGITS;

// The most bytes of the line of a refusal: `refused `, ` at `, LF and two numbers.
const MAX_REFUSAL: usize = 13 + 2 * MAX_DIGITS;

// Writes the lines of the first `count` runs of the list `runs`, or nothing (0 bytes) where the name has over 60 bytes, the list fewer runs, or `out` fewer
// places than the longest lines take. The count is compared with quotients, so that no product of it can wrap; it stands beside the list, since a count
// too large is part of what is promised.
// 0, and no Option: the contract is one equation with the bytes that are written, which are none then.
#[tactic(auto, using(answer::specs::ContentLaws::written_as, crate::specs::Laws::Bed::rows_fitting))]
pub fn write_lines(name: &[u8], runs: &[u32], count: usize, out: &mut [u8]) -> usize
    ensures content { Written out.old out.new 0 result (lines_fitting name.now runs.now count (length out.old)) }
{
    let (runs, _) = runs.as_chunks::<3>();
    if name.len() > MAX_NAME || count > runs.len() || count > out.len() / MAX_LINE {
        return 0;
    }
    write_runs(name, &runs[..count], out)
}

// Writes the line of a refusal, with its number and position, or nothing (0 bytes) where `out` has fewer places than the longest such line takes.
// 0, and no Option, as above. Number and position, and no `Refused`: any two can be printed.
pub fn write_refusal(number: u32, position: u32, out: &mut [u8]) -> usize
    ensures content { Written out.old out.new 0 result (refusal_fitting number position (length out.old)) }
{
    if out.len() < MAX_REFUSAL {
        return 0;
    }
    let mut text = Text::new(out);
    text.labelled(b"refused ", number as usize);
    text.labelled(b" at ", position as usize);
    text.byte(LINE_END);
    text.len
}
