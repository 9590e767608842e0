// The calls of the library, exported to C under the names of include/lyndon.h. Each hands on the library's answer and buffers unchanged.
// A slice is a pointer and a length in C; that pointers are valid for their lengths, and that a buffer which is written overlaps no other
// buffer of the call, is the C caller's part.
#![tactic(auto)]

ghost use Rattle.std.specs.Prelude.{◌≡◌, length};
ghost use Rattle.lyndon_c.specs.Record.{record_of, name_of};
ghost use Rattle.array.specs.Calls.{array_answer, array_ranked_answer, runs_answer, runs_ranked_answer};
ghost use Rattle.array.specs.Theorems.{array_after, list_after, work_after};
ghost use Rattle.array.specs.RankTheorems.{array_ranked_after, list_ranked_after, work_ranked_after};
ghost use Rattle.factors.specs.Answers.{factorization_answer, factorization_ranked_answer, suffix_table_answer, suffix_table_ranked_answer};
ghost use Rattle.factors.specs.Theorems.{starts_after, factors_ranked_after, table_after, suffix_table_ranked_after};
ghost use Rattle.left_forest.specs.Answers.{left_forest_answer, left_forest_ranked_answer};
ghost use Rattle.left_forest.specs.Theorems.{left_first_after, left_past_after, left_first_ranked_after, left_past_ranked_after};
ghost use Rattle.from_array.specs.Answers.{reconstruct_answer, right_forest_answer};
ghost use Rattle.from_array.specs.Theorems.{text_after, right_first_after, right_past_after};
ghost use Rattle.infinite_order.specs.Answers.{compare_answer, prefix_permutation_answer};
ghost use Rattle.infinite_order.specs.PrefixTheorems.{permutation_after};
ghost use Rattle.fasta.specs.Reader.{reader_answer, letters_after};
ghost use Rattle.table_store.specs.Store.{new_store, lookup};
ghost use Rattle.table_store.specs.Calls.{write_answer, store_after, read_answer, read_after, array_stored_answer, array_stored_after};
ghost use Rattle.table_store.specs.Calls.{factorization_stored_answer, factors_stored_after, suffix_table_stored_answer, suffix_table_stored_after};
ghost use Rattle.table_store.specs.Calls.{left_forest_stored_answer, left_first_stored_after, left_past_stored_after};
ghost use Rattle.table_store.specs.Calls.{runs_stored_answer, list_stored_after, work_stored_after};

use answer::Answer;
use table_store::store::{TableName, TableStore};

// An answer as C has it: number 0, the count and the letter comparisons that were counted, or the
// refusal's number, the position and 0.
#[repr(C)]
#[derive(Clone, Copy, Debug, PartialEq, Eq)]
pub struct LyndonAnswer {
    pub number: u32,
    pub value: u32,
    pub comparisons: u32,
}

// A store and the answer of the call that wrote into it, as C has them.
#[repr(C)]
#[derive(Clone, Copy, Debug, PartialEq, Eq)]
pub struct LyndonStoreWritten {
    pub store: TableStore,
    pub answer: LyndonAnswer,
}

impl From<Answer> for LyndonAnswer {
    ghost from_gives = { λ a told. told ≡ record_of a };

    fn from(a: Answer) -> LyndonAnswer {
        LyndonAnswer {
            number: a.number(),
            value: a.value(),
            comparisons: a.comparisons(),
        }
    }
}

// A table's name, as C gives it: 0 for the group's own tables, any other number for the built-in ones.
fn named(group: u32, builtin: u32, number: u32) -> TableName
    ensures name { result ≡ name_of group builtin number }
{
    TableName {
        group,
        builtin: builtin != 0,
        number,
    }
}

// The Lyndon array of a text of bytes.
#[unsafe(no_mangle)]
pub extern "C" fn lyndon_array_u8(text: &[u8], order: u32, out: &mut [u32]) -> LyndonAnswer
    ensures answer { result ≡ record_of (array_answer (length text.now) order (length out.old)) }
    ensures content { out.new ≡ array_after text.now order out.old }
{
    array::bytes::lyndon_array(text, order, out).into()
}

// The same in order 0, 1 or 2, in order 2 by a table of ranks.
#[unsafe(no_mangle)]
pub extern "C" fn lyndon_array_ranked(
    text: &[u8],
    order: u32,
    table: &[u8],
    out: &mut [u32],
) -> LyndonAnswer
    ensures answer { result ≡ record_of (array_ranked_answer (length text.now) order (length table.now) (length out.old)) }
    ensures content { out.new ≡ array_ranked_after order table.now text.now out.old }
{
    array::bytes::lyndon_array_ranked(text, order, table, out).into()
}

// The Lyndon array of a text of 32-bit letters.
#[unsafe(no_mangle)]
pub extern "C" fn lyndon_array_u32(text: &[u32], order: u32, out: &mut [u32]) -> LyndonAnswer
    ensures answer { result ≡ record_of (array_answer (length text.now) order (length out.old)) }
    ensures content { out.new ≡ array_after text.now order out.old }
{
    array::numbers::lyndon_array(text, order, out).into()
}

// All runs of a text of bytes.
#[unsafe(no_mangle)]
pub extern "C" fn lyndon_runs(text: &[u8], work: &mut [u32], list: &mut [u32]) -> LyndonAnswer
    ensures answer { result ≡ record_of (runs_answer text.now (length work.old) (length list.old)) }
    ensures entries { list.new ≡ list_after text.now work.old list.old }
    ensures arrays { work.new ≡ work_after text.now work.old list.old }
{
    array::runs::runs(text, work, list).into()
}

// The same by a table of ranks.
#[unsafe(no_mangle)]
pub extern "C" fn lyndon_runs_ranked(
    text: &[u8],
    table: &[u8],
    work: &mut [u32],
    list: &mut [u32],
) -> LyndonAnswer
    ensures answer { result ≡ record_of (runs_ranked_answer table.now text.now (length work.old) (length list.old)) }
    ensures entries { list.new ≡ list_ranked_after table.now text.now work.old list.old }
    ensures arrays { work.new ≡ work_ranked_after table.now text.now work.old list.old }
{
    array::runs::runs_ranked(text, table, work, list).into()
}

// The starts of the Lyndon factors of a text of bytes, in the default order.
#[unsafe(no_mangle)]
pub extern "C" fn lyndon_factorization(text: &[u8], out: &mut [u32]) -> LyndonAnswer
    ensures answer { result ≡ record_of (factorization_answer text.now (length out.old)) }
    ensures content { out.new ≡ starts_after text.now out.old }
{
    factors::factorization::factorization(text, out).into()
}

// The same in order 0, 1 or 2, in order 2 by a table of ranks.
#[unsafe(no_mangle)]
pub extern "C" fn lyndon_factorization_ranked(
    text: &[u8],
    order: u32,
    table: &[u8],
    out: &mut [u32],
) -> LyndonAnswer
    ensures answer { result ≡ record_of (factorization_ranked_answer order table.now text.now (length out.old)) }
    ensures content { out.new ≡ factors_ranked_after order table.now text.now out.old }
{
    factors::factorization::factorization_ranked(text, order, table, out).into()
}

// The Lyndon suffix table of a text of bytes, in the default order.
#[unsafe(no_mangle)]
pub extern "C" fn lyndon_suffix_table(text: &[u8], out: &mut [u32]) -> LyndonAnswer
    ensures answer { result ≡ record_of (suffix_table_answer text.now (length out.old)) }
    ensures content { out.new ≡ table_after text.now out.old }
{
    factors::suffix_table::suffix_table(text, out).into()
}

// The same in order 0, 1 or 2, in order 2 by a table of ranks.
#[unsafe(no_mangle)]
pub extern "C" fn lyndon_suffix_table_ranked(
    text: &[u8],
    order: u32,
    table: &[u8],
    out: &mut [u32],
) -> LyndonAnswer
    ensures answer { result ≡ record_of (suffix_table_ranked_answer order table.now text.now (length out.old)) }
    ensures content { out.new ≡ suffix_table_ranked_after order table.now text.now out.old }
{
    factors::suffix_table::suffix_table_ranked(text, order, table, out).into()
}

// The left Lyndon forest of a text of bytes, in the default order.
#[unsafe(no_mangle)]
pub extern "C" fn lyndon_left_forest(
    text: &[u8],
    first: &mut [u32],
    past: &mut [u32],
) -> LyndonAnswer
    ensures answer { result ≡ record_of (left_forest_answer text.now (length first.old) (length past.old)) }
    ensures starts { first.new ≡ left_first_after text.now first.old past.old }
    ensures ends { past.new ≡ left_past_after text.now first.old past.old }
{
    left_forest::left_forest(text, first, past).into()
}

// The same in order 0, 1 or 2, in order 2 by a table of ranks.
#[unsafe(no_mangle)]
pub extern "C" fn lyndon_left_forest_ranked(
    text: &[u8],
    order: u32,
    table: &[u8],
    first: &mut [u32],
    past: &mut [u32],
) -> LyndonAnswer
    ensures answer { result ≡ record_of (left_forest_ranked_answer order table.now text.now (length first.old) (length past.old)) }
    ensures starts { first.new ≡ left_first_ranked_after order table.now text.now first.old past.old }
    ensures ends { past.new ≡ left_past_ranked_after order table.now text.now first.old past.old }
{
    left_forest::left_forest_ranked(text, order, table, first, past).into()
}

// The right Lyndon forest of every text that has the array.
#[unsafe(no_mangle)]
pub extern "C" fn lyndon_right_forest(
    array: &[u32],
    first: &mut [u32],
    past: &mut [u32],
) -> LyndonAnswer
    ensures answer { result ≡ record_of (right_forest_answer array.now (length first.old) (length past.old)) }
    ensures starts { first.new ≡ right_first_after array.now first.old past.old }
    ensures ends { past.new ≡ right_past_after array.now first.old past.old }
{
    from_array::right_forest(array, first, past).into()
}

// A text of 32-bit letters that has the array.
#[unsafe(no_mangle)]
pub extern "C" fn lyndon_reconstruct(array: &[u32], text: &mut [u32]) -> LyndonAnswer
    ensures answer { result ≡ record_of (reconstruct_answer array.now (length text.old)) }
    ensures content { text.new ≡ text_after array.now text.old }
{
    from_array::reconstruct(array, text).into()
}

// Which of two texts of bytes is before the other in infinite order, in rising order of letters.
#[unsafe(no_mangle)]
pub extern "C" fn lyndon_compare_infinite(u: &[u8], v: &[u8]) -> LyndonAnswer
    ensures answer { result ≡ record_of (compare_answer u.now v.now) }
{
    infinite_order::compare::compare_infinite(u, v).into()
}

// The prefix standard permutation of a Lyndon word of bytes, in rising order of letters.
#[unsafe(no_mangle)]
pub extern "C" fn lyndon_prefix_permutation(word: &[u8], out: &mut [u32]) -> LyndonAnswer
    ensures answer { result ≡ record_of (prefix_permutation_answer word.now (length out.old)) }
    ensures content { out.new ≡ permutation_after word.now out.old }
{
    infinite_order::prefix_permutation::prefix_permutation(word, out).into()
}

// The letters of a FASTA input of one record.
#[unsafe(no_mangle)]
pub extern "C" fn lyndon_read_fasta(input: &[u8], letters: &mut [u8]) -> LyndonAnswer
    ensures answer { result ≡ record_of (reader_answer input.now (length letters.old)) }
    ensures content { letters.new ≡ letters_after input.now letters.old }
{
    fasta::read(input, letters).into()
}

// A store in which no table is written.
#[unsafe(no_mangle)]
pub extern "C" fn lyndon_store_new() -> TableStore
    ensures store { result ≡ new_store }
{
    TableStore::new()
}

// Replaces a group's own table.
#[unsafe(no_mangle)]
pub extern "C" fn lyndon_store_write(
    mut store: TableStore,
    group: u32,
    number: u32,
    table: &[u8],
) -> LyndonStoreWritten
    ensures answer { result.answer ≡ record_of (write_answer group number (length table.now)) }
    ensures store { result.store ≡ store_after store group number table.now }
{
    let answer = store.write(group, number, table).into();
    LyndonStoreWritten { store, answer }
}

// Reads a table back, a group's own or a built-in one.
#[unsafe(no_mangle)]
pub extern "C" fn lyndon_store_read(
    store: TableStore,
    group: u32,
    builtin: u32,
    number: u32,
    out: &mut [u8],
) -> LyndonAnswer
    ensures answer { result ≡ record_of (read_answer (lookup store (name_of group builtin number)) (length out.old)) }
    ensures content { out.new ≡ read_after (lookup store (name_of group builtin number)) out.old }
{
    let name = named(group, builtin, number);
    store.read(name, out).into()
}

// The Lyndon array of a text of bytes, by a table of a store.
#[unsafe(no_mangle)]
pub extern "C" fn lyndon_store_array(
    store: TableStore,
    group: u32,
    builtin: u32,
    number: u32,
    text: &[u8],
    out: &mut [u32],
) -> LyndonAnswer
    ensures answer { result ≡ record_of (array_stored_answer (lookup store (name_of group builtin number)) text.now (length out.old)) }
    ensures content { out.new ≡ array_stored_after (lookup store (name_of group builtin number)) text.now out.old }
{
    let name = named(group, builtin, number);
    stored_calls::lyndon_array_stored(&store, name, text, out).into()
}

// The starts of its Lyndon factors, likewise.
#[unsafe(no_mangle)]
pub extern "C" fn lyndon_store_factorization(
    store: TableStore,
    group: u32,
    builtin: u32,
    number: u32,
    text: &[u8],
    out: &mut [u32],
) -> LyndonAnswer
    ensures answer { result ≡ record_of (factorization_stored_answer (lookup store (name_of group builtin number)) text.now (length out.old)) }
    ensures content { out.new ≡ factors_stored_after (lookup store (name_of group builtin number)) text.now out.old }
{
    let name = named(group, builtin, number);
    stored_calls::factorization_stored(&store, name, text, out).into()
}

// Its Lyndon suffix table, likewise.
#[unsafe(no_mangle)]
pub extern "C" fn lyndon_store_suffix_table(
    store: TableStore,
    group: u32,
    builtin: u32,
    number: u32,
    text: &[u8],
    out: &mut [u32],
) -> LyndonAnswer
    ensures answer { result ≡ record_of (suffix_table_stored_answer (lookup store (name_of group builtin number)) text.now (length out.old)) }
    ensures content { out.new ≡ suffix_table_stored_after (lookup store (name_of group builtin number)) text.now out.old }
{
    let name = named(group, builtin, number);
    stored_calls::suffix_table_stored(&store, name, text, out).into()
}

// Its left Lyndon forest, likewise.
#[unsafe(no_mangle)]
pub extern "C" fn lyndon_store_left_forest(
    store: TableStore,
    group: u32,
    builtin: u32,
    number: u32,
    text: &[u8],
    first: &mut [u32],
    past: &mut [u32],
) -> LyndonAnswer
    ensures answer { result ≡ record_of (left_forest_stored_answer (lookup store (name_of group builtin number)) text.now (length first.old) (length past.old)) }
    ensures starts { first.new ≡ left_first_stored_after (lookup store (name_of group builtin number)) text.now first.old past.old }
    ensures ends { past.new ≡ left_past_stored_after (lookup store (name_of group builtin number)) text.now first.old past.old }
{
    let name = named(group, builtin, number);
    stored_calls::left_forest_stored(&store, name, text, first, past).into()
}

// All its runs, likewise.
#[unsafe(no_mangle)]
pub extern "C" fn lyndon_store_runs(
    store: TableStore,
    group: u32,
    builtin: u32,
    number: u32,
    text: &[u8],
    work: &mut [u32],
    list: &mut [u32],
) -> LyndonAnswer
    ensures answer { result ≡ record_of (runs_stored_answer (lookup store (name_of group builtin number)) text.now (length work.old) (length list.old)) }
    ensures entries { list.new ≡ list_stored_after (lookup store (name_of group builtin number)) text.now work.old list.old }
    ensures arrays { work.new ≡ work_stored_after (lookup store (name_of group builtin number)) text.now work.old list.old }
{
    let name = named(group, builtin, number);
    stored_calls::runs_stored(&store, name, text, work, list).into()
}
