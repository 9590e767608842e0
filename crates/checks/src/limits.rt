// The limits of documents 01 and 02 that the calls share, named here and in the file `Limits` of `answer`. Nothing is assumed.
ghost use Rattle.std.specs.Prelude.{◌≡◌};
ghost use Rattle.answer.specs.Limits.{prefix_count};

// The most letters of a text, or entries of an array.
pub const MAX_LENGTH: usize = 1_048_576;

// The most letters that the reader hands on, and the length of the buffer that it needs for them.
pub const MAX_LETTERS: usize = 4_096;

// The most bytes of a FASTA input.
pub const MAX_INPUT: usize = 16_384;

// The places of the run list for each run: there are fewer runs than letters.
pub const RUN_PLACES: usize = 3;

// The places of the work buffer of the runs for each letter.
pub const WORK_PLACES: usize = 2;

// The order number that stands for a rank table.
pub const RANKED: u32 = 2;

// The entries of a rank table.
pub const TABLE_LENGTH: usize = 256;

// The proper non-empty prefixes of a word of n letters; none where n is 0.
pub fn prefix_count(n: usize) -> usize
    ensures count { result ≡ prefix_count n }
{
    n.saturating_sub(1)
}
