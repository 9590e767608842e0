// One record of a FASTA input: its header, its name and its sequence lines, checked in the order of document 01's table.
// Contracts cite `specs/Record.antt`. Nothing is assumed.
#![tactic(auto)]

pub mod bytes;
pub mod lines;
pub mod name;

ghost use Rattle.std.specs.Prelude.{◌≡◌};
ghost use Rattle.fasta_record.specs.Record.{name_end, record_at};

use crate::bytes::{HEADER_MARK, stands_at};
use crate::lines::{Lines, after_line, lines_from};
use crate::name::name_from;
use answer::Reason;

// Why a record is refused, and at which position of the input. No `Refused`: an input of any length is read here, so positions have 64 bits.
#[derive(Clone, Copy, Debug, PartialEq, Eq)]
pub struct Fault {
    pub reason: Reason,
    pub position: usize,
}

// A record: where its name ends, past the last byte, and its sequence lines.
#[derive(Clone, Copy, Debug, PartialEq, Eq)]
pub struct Record {
    pub name_end: usize,
    pub lines: Lines,
}

// Where the name of the record that starts at `from` ends, past the last byte, also where its sequence lines are refused.
pub fn name_end_at(input: &[u8], from: usize) -> Result<usize, Fault>
    ensures found { result ≡ name_end input.now from }
{
    if !stands_at(HEADER_MARK, input, from) {
        return Err(Fault {
            reason: Reason::NoHeader,
            position: from,
        });
    }
    name_from(&input[from + 1..], from + 1)
}

// The record that starts at `from`.
#[tactic(auto, using(crate::proofs::Reading::line_within))]
pub fn record_at(input: &[u8], from: usize) -> Result<Record, Fault>
    ensures found { result ≡ record_at input.now from }
{
    let name_end = name_end_at(input, from)?;
    let start = after_line(input, from);
    let lines = lines_from(&input[start..], start)?;
    Ok(Record { name_end, lines })
}
