// The checks that calls begin with: together for each kind of call, below one by one. The first that fails is the call's answer.
//
// Calls whose checks are alike but for the order and its table (those on texts, forests and runs) name the same checks; a function for the two that they
// share would be no plainer, and would hide their order. Parameters of one meaning have different names where must-fail edits tell lines apart by them.
// Flags are answers of tests that the caller made, checked as lengths are: no step is switched by them.
//
// Contracts cite `specs/Checks.antt`. Nothing is assumed.
#![tactic(auto)]

pub mod limits;

ghost use Rattle.std.specs.Prelude.{◌≡◌, true, false, ◌<◌, ◌≤◌, OnOk};
ghost use Rattle.answer.specs.Limits.{Sized, max_length, max_letters, max_input, run_list_length, work_length, ranked_order, table_length};
ghost use Rattle.answer.specs.Answers.{refused_if};
ghost use Rattle.checks.specs.Checks.{Refuses, empty_checked, limit_checked, length_checked, order_checked, output_checked, work_checked};
ghost use Rattle.checks.specs.Checks.{input_checked, text_checked, ordered_text_checked, forest_checked, runs_checked, reader_checked};
ghost use Rattle.checks.specs.Checks.{uses_table, table_checked, ranked_checked, ranked_text_checked, ranked_forest_checked, ranked_runs_checked};
ghost use Rattle.checks.specs.Checks.{existence_checked, table_use_checked, table_write_checked};
ghost use Rattle.checks.specs.Checks.{lyndon_checked, two_texts_checked};

use answer::{Reason, Refused};

// 1 and 2: a call on n letters or entries.
pub fn length(n: usize) -> Result<(), Refused>
    ensures check { Refuses result (length_checked max_length n) }
    ensures passed { OnOk result (Sized n) }
{
    nonempty(n)?;
    at_most_limit(n)
}

// 1, 2 and 4: a call on n letters or entries that needs as many places.
pub fn text(n: usize, given: usize) -> Result<(), Refused>
    ensures check { Refuses result (text_checked n given) }
    ensures passed { OnOk result (Sized n × (n ≤ given)) }
{
    length(n)?;
    output(n, given)
}

// 1, 2, 3 and 4: such a call on letters that has an order number, 0 or 1.
// The order is a number, as C gives it.
pub fn ordered_text(letters: usize, number: u32, given: usize) -> Result<(), Refused>
    ensures check { Refuses result (ordered_text_checked letters number given) }
    ensures passed { OnOk result (Sized letters × (number ≤ 1) × (letters ≤ given)) }
{
    length(letters)?;
    order(1, number)?;
    output(letters, given)
}

// 1 for either text, then 2 for either text: a call on two texts, with their lengths.
pub fn two_texts(first: usize, second: usize) -> Result<(), Refused>
    ensures check { Refuses result (two_texts_checked first second) }
    ensures passed { OnOk result (Sized first × Sized second) }
{
    nonempty(first)?;
    nonempty(second)?;
    at_most_limit(first)?;
    at_most_limit(second)
}

// 1, 2, 3 and 16: a call on letters in order 0, 1 or 2, with the length of its rank table.
// The order is a number, as C gives it.
fn ranked(letter_count: usize, number: u32, entries: usize) -> Result<(), Refused>
    ensures check { Refuses result (ranked_checked letter_count number entries) }
    ensures passed { OnOk result (Sized letter_count × (number ≤ ranked_order) × (uses_table number ≡ true → entries ≡ table_length)) }
{
    length(letter_count)?;
    order(limits::RANKED, number)?;
    if number == limits::RANKED {
        return table(entries);
    }
    Ok(())
}

// 1, 2, 3, 16 and 4: such a call that needs as many places.
// The order is a number, as C gives it.
pub fn ranked_text(size: usize, number: u32, entries: usize, given: usize) -> Result<(), Refused>
    ensures check { Refuses result (ranked_text_checked size number entries given) }
    ensures passed { OnOk result (Sized size × (number ≤ ranked_order) × (uses_table number ≡ true → entries ≡ table_length) × (size ≤ given)) }
{
    ranked(size, number, entries)?;
    output(size, given)
}

// 1, 2, 3, 16 and 4, of both buffers: a forest of letters in such an order.
// The order is a number, as C gives it.
pub fn ranked_forest(
    size: usize,
    number: u32,
    entries: usize,
    first: usize,
    past: usize,
) -> Result<(), Refused>
    ensures check { Refuses result (ranked_forest_checked size number entries first past) }
    ensures passed { OnOk result (Sized size × (number ≤ ranked_order) × (uses_table number ≡ true → entries ≡ table_length) × (size ≤ first) × (size ≤ past)) }
{
    ranked_text(size, number, entries, first)?;
    output(size, past)
}

// 1, 2 and 4, of both buffers: a forest of n letters or entries.
pub fn forest(n: usize, first: usize, past: usize) -> Result<(), Refused>
    ensures check { Refuses result (forest_checked n first past) }
    ensures passed { OnOk result (Sized n × (n ≤ first) × (n ≤ past)) }
{
    text(n, first)?;
    output(n, past)
}

// 1, 2, 4 and 5: the runs of so many letters, with the lengths of list and work buffer.
pub fn runs(size: usize, list: usize, buffer: usize) -> Result<(), Refused>
    ensures check { Refuses result (runs_checked size list buffer) }
    ensures passed { OnOk result (Sized size × (run_list_length size ≤ list) × (work_length size ≤ buffer)) }
{
    length(size)?;
    run_list(size, list)?;
    run_work(size, buffer)
}

// 1, 2, 16, 4 and 5: the same by a rank table, with its length.
pub fn ranked_runs(
    text_length: usize,
    entries: usize,
    places: usize,
    work: usize,
) -> Result<(), Refused>
    ensures check { Refuses result (ranked_runs_checked text_length entries places work) }
    ensures passed { OnOk result (Sized text_length × (entries ≡ table_length) × (run_list_length text_length ≤ places) × (work_length text_length ≤ work)) }
{
    length(text_length)?;
    table(entries)?;
    run_list(text_length, places)?;
    run_work(text_length, work)
}

// 21 and 22: a call that uses or reads a table of a store, which is usable if it is a built-in one or was written.
pub fn table_use(there: bool, usable: bool) -> Result<(), Refused>
    ensures check { Refuses result (table_use_checked there usable) }
    ensures passed { OnOk result ((there ≡ true) × (usable ≡ true)) }
{
    existence(there)?;
    refuse_if(!usable, Reason::UnwrittenTable, 0)
}

// 21 and 16: a call that writes a table of a store.
pub fn table_write(exists: bool, given: usize) -> Result<(), Refused>
    ensures check { Refuses result (table_write_checked exists given) }
    ensures passed { OnOk result ((exists ≡ true) × (given ≡ table_length)) }
{
    existence(exists)?;
    table(given)
}

// 4 and 15: the reader, on an input of n bytes.
pub fn reader(n: usize, given: usize) -> Result<(), Refused>
    ensures check { Refuses result (reader_checked n given) }
    ensures passed { OnOk result ((max_letters ≤ given) × (n ≤ max_input)) }
{
    output(limits::MAX_LETTERS, given)?;
    input(n)
}

// A check that fails or not, with its reason and position.
fn refuse_if(fails: bool, reason: Reason, position: u32) -> Result<(), Refused>
    ensures check { Refuses result (refused_if fails reason position) }
    ensures passed { OnOk result (fails ≡ false) }
{
    if fails {
        Err(Refused { reason, position })
    } else {
        Ok(())
    }
}

// 1: a text or array of n letters or entries is not empty.
fn nonempty(n: usize) -> Result<(), Refused>
    ensures check { Refuses result (empty_checked n) }
    ensures passed { OnOk result (0 < n) }
{
    refuse_if(n == 0, Reason::EmptyText, 0)
}

// 2: it has at most 1,048,576 of them.
fn at_most_limit(n: usize) -> Result<(), Refused>
    ensures check { Refuses result (limit_checked max_length n) }
    ensures passed { OnOk result (n ≤ max_length) }
{
    refuse_if(limits::MAX_LENGTH < n, Reason::TextTooLong, 0)
}

// 3: the order number is at most `last`.
// The order is a number, as C gives it.
fn order(last: u32, order: u32) -> Result<(), Refused>
    ensures check { Refuses result (order_checked last order) }
    ensures passed { OnOk result (order ≤ last) }
{
    refuse_if(last < order, Reason::UnknownOrder, 0)
}

// 16: a rank table that is used has an entry for each byte.
fn table(entries: usize) -> Result<(), Refused>
    ensures check { Refuses result (table_checked true entries) }
    ensures passed { OnOk result (entries ≡ table_length) }
{
    refuse_if(entries != limits::TABLE_LENGTH, Reason::WrongTable, 0)
}

// 21: the table of a store that a call names exists.
fn existence(there: bool) -> Result<(), Refused>
    ensures check { Refuses result (existence_checked there) }
    ensures passed { OnOk result (there ≡ true) }
{
    refuse_if(!there, Reason::UnknownTable, 0)
}

// 17: a text that must be a Lyndon word is one.
pub fn lyndon(holds: bool) -> Result<(), Refused>
    ensures check { Refuses result (lyndon_checked holds) }
    ensures passed { OnOk result (holds ≡ true) }
{
    refuse_if(!holds, Reason::NotLyndon, 0)
}

// 4: an output buffer has the places needed.
pub fn output(needed: usize, given: usize) -> Result<(), Refused>
    ensures check { Refuses result (output_checked needed given) }
    ensures passed { OnOk result (needed ≤ given) }
{
    refuse_if(given < needed, Reason::ShortOutput, 0)
}

// 4, of the run list of n letters: three places for each of n − 1 runs. n is compared with the runs that have room and one more, so that
// neither a product nor a difference can wrap.
fn run_list(n: usize, given: usize) -> Result<(), Refused>
    ensures check { Refuses result (output_checked (run_list_length n) given) }
    ensures passed { OnOk result (run_list_length n ≤ given) }
{
    output(n, given / limits::RUN_PLACES + 1)
}

// 5, of the work buffer of the runs of n letters; a quotient is compared, so that no product wraps.
fn run_work(n: usize, given: usize) -> Result<(), Refused>
    ensures check { Refuses result (work_checked (work_length n) given) }
    ensures passed { OnOk result (work_length n ≤ given) }
{
    refuse_if(given / limits::WORK_PLACES < n, Reason::ShortWork, 0)
}

// 15: the input of the reader has at most as many bytes as its limit.
fn input(n: usize) -> Result<(), Refused>
    ensures check { Refuses result (input_checked n) }
    ensures passed { OnOk result (n ≤ max_input) }
{
    refuse_if(
        limits::MAX_INPUT < n,
        Reason::FileTooLong,
        limits::MAX_INPUT as u32,
    )
}
