// What the repeat lister prints: BED lines, or the line of a refusal.
// Contracts cite `specs/Listing.antt`. Nothing is assumed.
#![tactic(auto)]

ghost use Rattle.std.specs.Prelude.{◌≤◌, ◌<◌, length};
ghost use Rattle.answer.specs.Limits.{max_letters};
ghost use Rattle.answer.specs.Content.{Written};
ghost use Rattle.array.specs.Calls.{run_list};
ghost use Rattle.fasta_record.specs.Name.{max_name};
ghost use Rattle.bed.specs.Bed.{bed_lines};
ghost use Rattle.listing.specs.Limits.{max_listing};
ghost use Rattle.listing.specs.Listing.{listing_of};

use array::runs::runs;
use bed::{MAX_LINE, write_lines, write_refusal};
use checks::limits::{MAX_LETTERS, RUN_PLACES, WORK_PLACES};

// The reader's letters have no more runs than this: there are fewer than letters.
const MAX_RUNS: usize = MAX_LETTERS - 1;

// The lengths of the buffers for the reader's letters, for the run call's work and for its list.
const LETTERS: usize = MAX_LETTERS;

const WORK: usize = WORK_PLACES * LETTERS;

const RUNS: usize = RUN_PLACES * MAX_RUNS;

// No more bytes are printed for an input: a line for each run.
pub const MAX_LISTING: usize = MAX_LINE * MAX_RUNS;

// Seeks the runs of the letters of a record, and writes their lines under its name at the start of `out`.
fn write_record(name: &[u8], letters: &[u8], out: &mut [u8]) -> usize
    requires name_fits { length name.now ≤ max_name }
    requires some_letters { 0 < length letters.now }
    requires letters_fit { length letters.now ≤ max_letters }
    requires listing_fits { max_listing ≤ length out.old }
    ensures content { Written out.old out.new 0 result (bed_lines name.now (run_list letters.now)) }
{
    let mut work = [0u32; WORK];
    let mut list = [0u32; RUNS];
    let count = runs(letters, &mut work, &mut list).value();
    write_lines(name, &list, count as usize, out)
}

// Writes all that is printed for the input at the start of `out`, and returns how long it is. Changes nothing past it. The reader's outcome
// is taken apart before any run is sought, by `let .. else`, which document 01 names.
pub fn list(input: &[u8], out: &mut [u8; MAX_LISTING]) -> usize
    ensures content { Written out.old out.new 0 result (listing_of input.now) }
{
    let mut letters = [0u8; LETTERS];
    let outcome = fasta::read_named(input, &mut letters);
    let Ok(named) = outcome else {
        let refusal = outcome.unwrap_err();
        return write_refusal(refusal.reason.number(), refusal.position, out);
    };
    let name = &input[1..named.end];
    write_record(name, &letters[..named.accepted.count as usize], out)
}
