// The left forest of a byte text, in the default order and in an order with a rank table. Public calls
// with no `requires`: crate `factors` writes the Lyndon suffix table, and two passes make the forest of it.
//
// Contracts cite `specs/Answers.antt`. Nothing is assumed.
#![tactic(auto)]

ghost use Rattle.std.specs.Prelude.{◌≡◌, ℕ, length};
ghost use Rattle.answer.specs.AfterCall.{content_after};
ghost use Rattle.left_forest.specs.Answers.{default_left_first, default_left_past, left_forest_answer, left_first_in, left_past_in, left_forest_ranked_answer};
ghost use Rattle.left_forest.specs.Links.{Descends, Linked, Closes, Linkable, Crossed, OwnRoots};

use answer::Answer;
use checks::limits;
use factors::suffix_table::suffix_table_ranked;

// FIRST and PAST are passed side by side, and not in a struct: each method of one would also have to ensure that its two references stay the same.

// The word that ends at `e` starts at `last`: from `e` down the links of FIRST, each position above
// `last` gets its end in PAST.
fn close(first: &[u32], past: &mut [u32], e: usize, last: usize)
    requires { Descends first.now past.old e }
    ensures content { (start : ℕ → ℕ) → Linked start first.now e last → Closes start past.old past.new e }
{
    let mut t = e;
    // A while loop: the next position is the link that is read there. `successors` is no plainer, with a closure for the step and one for the end.
    while last < t {
        past[t] = (e + 1) as u32;
        t = first[t] as usize;
    }
}

// Reads the suffix table in PAST from left to right. FIRST gets the starts of its words, each one place
// further on, and PAST the ends at the positions that a word crosses. Returns the start of the last word.
fn link(first: &mut [u32], past: &mut [u32]) -> usize
    requires { Linkable first.old past.old }
    ensures content { Crossed first.old past.old first.new past.new (length first.old) result }
{
    let mut last: usize = 0;
    for e in 0..first.len() {
        first[e] = last as u32;
        last = e + 1 - past[e] as usize;
        close(first, past, e, last);
    }
    last
}

// From the start of the last word down the links of FIRST: each position that no word crosses, the
// start of a factor, holds itself in both buffers.
fn mark_roots(first: &mut [u32], past: &mut [u32], last: usize)
    requires { Descends first.old past.old last }
    ensures starts { (start : ℕ → ℕ) (e : ℕ) → Linked start first.old e last → OwnRoots start first.old first.new e }
    ensures ends { (start : ℕ → ℕ) (e : ℕ) → Linked start first.old e last → OwnRoots start past.old past.new e }
{
    let mut t = last;
    // A while loop: the next position is the link that is read there.
    while 0 < t {
        let next = first[t] as usize;
        first[t] = t as u32;
        past[t] = t as u32;
        t = next;
    }
    first[0] = 0;
    past[0] = 0;
}

// Writes the left forest of `text`, in an order and with a rank table that order 2 looks at, into
// `first` and `past`; the count is the number of letters. `past` holds the suffix table until its words
// have been read, and the checks of `suffix_table_ranked` pass where those before it do.
// The order is a number, as C gives it.
pub fn left_forest_ranked(
    text: &[u8],
    order: u32,
    table: &[u8],
    first: &mut [u32],
    past: &mut [u32],
) -> Answer
    ensures answer { result ≡ left_forest_ranked_answer order table.now text.now (length first.old) (length past.old) }
    ensures starts { first.new ≡ content_after result (left_first_in order table.now text.now) first.old }
    ensures ends { past.new ≡ content_after result (left_past_in order table.now text.now) past.old }
{
    let n = text.len();
    if let Err(refusal) = checks::ranked_forest(n, order, table.len(), first.len(), past.len()) {
        return Answer::from(refusal);
    }
    let first = &mut first[..n];
    let past = &mut past[..n];
    if let Err(refusal) = suffix_table_ranked(text, order, table, past).outcome {
        return Answer::from(refusal);
    }
    let last = link(first, past);
    mark_roots(first, past, last);
    answer::accept(n as u32)
}

// Writes the left forest of `text`, in the default order, into `first` and `past`; the count is the
// number of letters. A call of its own: C calls it by its name.
pub fn left_forest(text: &[u8], first: &mut [u32], past: &mut [u32]) -> Answer
    ensures answer { result ≡ left_forest_answer text.now (length first.old) (length past.old) }
    ensures starts { first.new ≡ content_after result (default_left_first text.now) first.old }
    ensures ends { past.new ≡ content_after result (default_left_past text.now) past.old }
{
    let table = letters::built_in::default_table();
    left_forest_ranked(text, limits::RANKED, &table, first, past)
}
