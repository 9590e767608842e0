// What every call of the library returns: accepted with its count and the letter comparisons that were counted, or refused with a
// reason and a position. `number`, `value` and `comparisons` say what a caller outside the library is told of an answer.
//
// Contracts cite `specs/Reasons.antt` and `specs/Answers.antt`. Nothing is assumed.
#![tactic(auto)]

ghost use Rattle.std.specs.Prelude.{◌≡◌};
ghost use Rattle.answer.specs.Reasons.{number_of};
ghost use Rattle.answer.specs.Answers.{uncompared, accepted_with, refused_by, number, value, comparisons};

// Why a call refuses its input, with the reason's number: a case for each row of document 01, "Where each check stands", and those that
// document 02 adds.
#[derive(Clone, Copy, Debug, PartialEq, Eq)]
pub enum Reason {
    // The length of the text or array is 0.
    EmptyText = 1,
    // The length of the text or array is over 1,048,576.
    TextTooLong = 2,
    // The order number is none that the call takes: 0 or 1, in the ranked forms also 2.
    UnknownOrder = 3,
    // An output buffer is shorter than needed; for the reader, the letters buffer is under 4,096.
    ShortOutput = 4,
    // The work buffer is shorter than 2 × n.
    ShortWork = 5,
    // An entry is 0.
    ZeroEntry = 6,
    // Entry i is over n − i.
    LongEntry = 7,
    // The span at j crosses an earlier span's end.
    CrossingSpans = 8,
    // FASTA byte 0 is absent or not '>'.
    NoHeader = 9,
    // The FASTA name is empty, or has a 61st byte, or a byte outside 33 to 126 that doesn't end it.
    BadName = 10,
    // An unfit byte, or '>' inside a line.
    UnfitByte = 11,
    // '>' at a line's start.
    SecondRecord = 12,
    // No letter read.
    NoLetters = 13,
    // A 4,097th letter.
    TooManyLetters = 14,
    // The FASTA input is over 16,384 bytes.
    FileTooLong = 15,
    // A rank table that is to be used, or to be written into a store, hasn't 256 entries.
    WrongTable = 16,
    // The text of a call that asks for a Lyndon word is not one, in rising order.
    NotLyndon = 17,
    // A store has no such group, or no table of that number.
    UnknownTable = 21,
    // A group's own table is used before it was written.
    UnwrittenTable = 22,
}

impl Reason {
    // The number of a reason.
    pub fn number(self) -> u32
        ensures number { result ≡ number_of self }
    {
        self as u32
    }
}

// What is told of an accepted input. Letter comparisons are counted by the factor list alone, any other call has 0 of them.
#[derive(Clone, Copy, Debug, PartialEq, Eq)]
pub struct Accepted {
    pub count: u32,
    pub comparisons: u32,
}

impl Accepted {
    // What a call that counts no comparisons tells of an accepted input. Each such call has it from here.
    pub fn uncompared(count: u32) -> Accepted
        ensures accepted { result ≡ uncompared count }
    {
        let comparisons = 0;
        Accepted { count, comparisons }
    }
}

// What is told of a refused input. The position is 0 where the tables of the documents name none.
#[derive(Clone, Copy, Debug, PartialEq, Eq)]
pub struct Refused {
    pub reason: Reason,
    pub position: u32,
}

// What every call returns: document 01 names this form, a struct that holds an enum.
#[derive(Clone, Copy, Debug, PartialEq, Eq)]
pub struct Answer {
    pub outcome: Result<Accepted, Refused>,
}

impl From<Refused> for Answer {
    ghost from_gives = { λ refusal answer. answer ≡ refused_by refusal };

    fn from(refusal: Refused) -> Answer {
        Answer {
            outcome: Err(refusal),
        }
    }
}

// The answer to an accepted input, with its count, of a call that counts no comparisons.
pub fn accept(count: u32) -> Answer
    ensures answer { result ≡ accepted_with count }
{
    Answer {
        outcome: Ok(Accepted::uncompared(count)),
    }
}

impl Answer {
    // Its number: 0 where it accepts, else the reason's.
    pub fn number(self) -> u32
        ensures number { result ≡ number self }
    {
        match self.outcome {
            Ok(_) => 0,
            Err(told) => told.reason.number(),
        }
    }

    // Its value: the count where it accepts, else the position.
    pub fn value(self) -> u32
        ensures value { result ≡ value self }
    {
        match self.outcome {
            Ok(told) => told.count,
            Err(told) => told.position,
        }
    }

    // Its comparisons: those counted where it accepts, else 0.
    pub fn comparisons(self) -> u32
        ensures comparisons { result ≡ comparisons self }
    {
        match self.outcome {
            Ok(told) => told.comparisons,
            Err(_) => 0,
        }
    }
}
