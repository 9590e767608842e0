// The FASTA reader: an input of one record, checked in the order of document 01's table, gives its letters and where its name ends.
// Contracts cite `specs/Reader.antt` and `specs/Accepted.antt`. Nothing is assumed.
#![tactic(auto)]

mod letters;

ghost use Rattle.std.specs.Prelude.{◌≡◌, ◌≤◌, length, IfOk};
ghost use Rattle.answer.specs.AfterCall.{content_after};
ghost use Rattle.answer.specs.Limits.{max_input};
ghost use Rattle.fasta.specs.Accepted.{AcceptedInput};
ghost use Rattle.fasta.specs.Reader.{only_record, answer_of, reader_answer, letters_of};

use crate::letters::write_letters;
use answer::{Accepted, Answer, Reason, Refused};
use fasta_record::lines::{Lines, Stop, after_line};
use fasta_record::{Fault, Record, record_at};

// What is told of an accepted input, and the `end` of its name, past the last byte.
#[derive(Clone, Copy, Debug, PartialEq, Eq)]
pub struct Named {
    pub accepted: Accepted,
    pub end: usize,
}

// The refusal of an input of fitting size for a fault in it. No `From`, which has no `requires`: the position must fit 32 bits.
fn refusal_for(fault: Fault) -> Refused
    requires { fault.position ≤ max_input }
    ensures reason { result.reason ≡ fault.reason }
    ensures position { result.position ≡ fault.position }
{
    Refused {
        reason: fault.reason,
        position: fault.position as u32,
    }
}

// The record of an input that has no other: refusals 12 and 13 come after those of the record.
fn only_record(input: &[u8]) -> Result<Record, Fault>
    ensures found { result ≡ only_record input.now }
{
    let record = record_at(input, 0)?;
    let Lines {
        count,
        stop,
        position,
    } = record.lines;
    match stop {
        Stop::NextRecord => Err(Fault {
            reason: Reason::SecondRecord,
            position,
        }),
        Stop::InputEnd if count == 0 => Err(Fault {
            reason: Reason::NoLetters,
            position,
        }),
        Stop::InputEnd => Ok(record),
    }
}

// Reads the letters of a FASTA input, as capitals, into `letters`, and tells where its name ends. A refusal changes nothing: one pass checks, and
// another stores the letters.
#[tactic(auto, using(crate::proofs::Laws::Positions::fault_within, crate::proofs::Laws::Accepted::record_room))]
pub fn read_named(input: &[u8], letters: &mut [u8]) -> Result<Named, Refused>
    ensures answer { answer_of result ≡ reader_answer input.now (length letters.old) }
    ensures content { letters.new ≡ content_after (answer_of result) (letters_of input.now) letters.old }
    ensures accepted { IfOk result (λ named. AcceptedInput input.now named.accepted.count named.end) }
{
    checks::reader(input.len(), letters.len())?;
    let record = only_record(input).map_err(refusal_for)?;
    write_letters(&input[after_line(input, 0)..], letters);
    let accepted = Accepted::uncompared(record.lines.count);
    Ok(Named {
        accepted,
        end: record.name_end,
    })
}

// Reads the letters of a FASTA input, as capitals, into `letters`. A refusal changes nothing.
pub fn read(input: &[u8], letters: &mut [u8]) -> Answer
    ensures answer { result ≡ reader_answer input.now (length letters.old) }
    ensures content { letters.new ≡ content_after result (letters_of input.now) letters.old }
{
    let outcome = read_named(input, letters).map(|named| named.accepted);
    Answer { outcome }
}
