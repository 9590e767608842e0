// The repeat lister: a FASTA input on standard input, BED lines or the line of a refusal on standard output.
// What is printed is proved of `listing::list`, and of `run` that it writes this for what it reads, and nothing else; which bytes the system
// gives and takes no contract can say. A read or a write that fails is told on standard error, and after a failed read nothing is listed.
// No call is made again, not even one that a signal interrupted.
#![tactic(auto)]

ghost use Rattle.std.specs.Prelude.{◌≡◌, ◌≤◌, ◌<◌, length, take, IfSome, IfOk, OnOk};
ghost use Rattle.std.specs.Io.KnownBytes.{Appends};
ghost use Rattle.answer.specs.Limits.{max_input};
ghost use Rattle.listing.specs.Listing.{listing_of};

use checks::limits::MAX_INPUT;
use listing::MAX_LISTING;
use std::io::{ErrorKind, Read, Write};
use std::{fmt, io};

// One byte over the most that the reader accepts: whatever follows changes nothing (`listing_first`).
const INPUT: usize = MAX_INPUT + 1;

// No more bytes are printed.
const OUTPUT: usize = MAX_LISTING;

// What failed.
#[derive(Clone, Copy, Debug)]
enum Failure {
    Input(io::Error),
    Output(io::Error),
}

// Reads until the reader ends or `input` is full, and returns how many bytes it gave.
fn read_input<R: Read>(from: &mut R, input: &mut [u8]) -> io::Result<usize>
    ensures count { IfOk result (λ count. count ≤ length input.new) }
    ensures bytes { IfOk result (λ count. IfSome (R.remaining from.old) (λ given. take count input.new ≡ take (length input.new) given)) }
{
    let mut done = 0;
    // A while loop: the step is what a read gives, and std's own loops make an interrupted read again.
    while done < input.len() {
        match from.read(&mut input[done..])? {
            0 => break,
            count => done += count,
        }
    }
    Ok(done)
}

// Writes all of `listed`, or fails.
fn write_listed<W: Write>(to: &mut W, listed: &[u8]) -> io::Result<()>
    ensures bytes { OnOk result (Appends (W.contents to.old) (W.contents to.new) listed.now) }
{
    let mut rest = listed;
    // A while loop: the step is what a write takes, and `write_all` makes an interrupted write again.
    while !rest.is_empty() {
        match to.write(rest)? {
            0 => return Err(io::Error::from(ErrorKind::WriteZero)),
            count => rest = &rest[count..],
        }
    }
    Ok(())
}

// Writes the listing of an input.
fn write_listing<W: Write>(to: &mut W, input: &[u8], out: &mut [u8; OUTPUT]) -> io::Result<()>
    ensures bytes { OnOk result (Appends (W.contents to.old) (W.contents to.new) (listing_of input.now)) }
{
    let length = listing::list(input, out);
    let listed: &[u8] = out;
    write_listed(to, &listed[..length])
}

// Reads the input, and writes its listing and nothing else.
fn run<R: Read, W: Write>(
    from: &mut R,
    to: &mut W,
    input: &mut [u8],
    out: &mut [u8; OUTPUT],
) -> Result<(), Failure>
    requires { max_input < length input.old }
    ensures bytes { OnOk result (IfSome (R.remaining from.old) (λ given.
        Appends (W.contents to.old) (W.contents to.new) (listing_of given))) }
{
    let count = read_input(from, input).map_err(Failure::Input)?;
    write_listing(to, &input[..count], out).map_err(Failure::Output)
}

// The most bytes of the reason that is told of a failure.
const MAX_REASON: usize = 96;

impl fmt::Display for Failure {
    // What failed and why: the reason as the system has it, without its number.
    fn fmt<W: fmt::Write>(&self, f: &mut fmt::Formatter<W>) -> fmt::Result {
        let (what, error) = match self {
            Failure::Input(error) => ("standard input", error),
            Failure::Output(error) => ("standard output", error),
        };
        // No heap: an array, whose zeros behind the reason are cut off.
        let mut reason = [0u8; MAX_REASON];
        let mut rest: &mut [u8] = &mut reason;
        let _ = write!(rest, "{error}");
        let text = str::from_utf8(&reason).unwrap_or_default();
        let told = match text.split_once(" (os error ") {
            Some((told, _)) => told,
            None => text.trim_end_matches('\0'),
        };
        write!(f, "{what}: {told}")
    }
}

fn main(rt: HostRuntime) {
    let mut input = [0u8; INPUT];
    let mut out = [0u8; OUTPUT];
    if let Err(failure) = run(&mut rt.stdin(), &mut rt.stdout(), &mut input, &mut out) {
        let _ = eprintln!(rt; "repeats: {failure}");
    }
}
