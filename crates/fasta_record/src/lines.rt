// The sequence lines of a record. Contracts cite `specs/Lines.antt`. Nothing is assumed.
ghost use Rattle.std.specs.Prelude.{◌≡◌, ◌==◌, false, ◌+◌, ◌^◌, ◌<◌, length, drop};
ghost use Rattle.std.specs.List.{position};
ghost use Rattle.fasta_record.specs.Bytes.{line_end};
ghost use Rattle.fasta_record.specs.Lines.{after_line, lines_from};

use crate::Fault;
use crate::bytes::{Kind, LINE_END, stands_at};
use answer::Reason;
use checks::limits::MAX_LETTERS;

// What the sequence lines of a record stop at.
#[derive(Clone, Copy, Debug, PartialEq, Eq)]
pub enum Stop {
    // The '>' of the next record.
    NextRecord,
    // The end of the input.
    InputEnd,
}

// The sequence lines of a record: how many letters they have, and what they stop at, and where.
#[derive(Clone, Copy, Debug, PartialEq, Eq)]
pub struct Lines {
    pub count: u32,
    pub stop: Stop,
    pub position: usize,
}

// Where the LF stands in `rest` that ends its first line.
fn line_end_in(rest: &[u8]) -> Option<usize>
    ensures found { result ≡ position (λ b. b == line_end) rest.now }
{
    rest.iter().position(|&byte| byte == LINE_END)
}

// Where the line ends whose bytes from `from` on are left: past its LF, or the input's end; `from` where nothing is left.
#[tactic(auto, using(crate::proofs::Reading::line_found))]
pub fn after_line(input: &[u8], from: usize) -> usize
    ensures result { result ≡ after_line from (drop from input.now) }
{
    let Some(rest) = input.get(from..) else {
        return from;
    };
    match line_end_in(rest) {
        Some(index) => from + index + 1,
        None => input.len(),
    }
}

// The sequence lines that `rest` holds, which starts at position `from` of the input.
pub(crate) fn lines_from(rest: &[u8], from: usize) -> Result<Lines, Fault>
    requires { from + length rest.now < 2 ^ 64 }
    ensures result { result ≡ lines_from from false 0 rest.now }
{
    let mut inside = false;
    // Counted by hand: it is part of what is told, and tested on the way.
    let mut count = 0;
    for (index, &byte) in rest.iter().enumerate() {
        let position = from + index;
        let unfit = Err(Fault {
            reason: Reason::UnfitByte,
            position,
        });
        match Kind::from(byte) {
            Kind::Letter => {
                if count as usize >= MAX_LETTERS {
                    return Err(Fault {
                        reason: Reason::TooManyLetters,
                        position,
                    });
                }
                inside = true;
                count += 1;
            }
            Kind::LineEnd => inside = false,
            Kind::CarriageReturn => {
                if !stands_at(LINE_END, rest, index + 1) {
                    return unfit;
                }
                inside = true;
            }
            Kind::HeaderMark => {
                let next_record = Ok(Lines {
                    count,
                    stop: Stop::NextRecord,
                    position,
                });
                return if inside { unfit } else { next_record };
            }
            Kind::Unfit => return unfit,
        }
    }
    Ok(Lines {
        count,
        stop: Stop::InputEnd,
        position: from + rest.len(),
    })
}
