// The calls that use a table of a store, a group's own or a built-in one: each is the ranked call in order 2 by that table, with no order asked
// for. Refused by document 02's checks 21 and 22, then by those of the ranked call, of which 3 and 16 never fail here.
//
// Each call takes the look-up apart by itself: one function over a closure was tried, and of buffers that a closure borrows nothing is known
// after it was called.
//
// Contracts cite the files `Store` and `Calls` of `table_store`; the clause `step` says the same as a step of a series (`Series`). Nothing is
// assumed.
#![tactic(auto)]

ghost use Rattle.std.specs.Prelude.{◌≡◌, [], ◌∷◌, length};
ghost use Rattle.table_store.specs.Store.{lookup};
ghost use Rattle.table_store.specs.Series.{result_with, result_of, use_table, array, factorization, suffix_table, left_forest, runs};
ghost use Rattle.table_store.specs.Calls.{array_stored_answer, array_stored_after, factorization_stored_answer, factors_stored_after};
ghost use Rattle.table_store.specs.Calls.{suffix_table_stored_answer, suffix_table_stored_after, left_forest_stored_answer, left_first_stored_after};
ghost use Rattle.table_store.specs.Calls.{left_past_stored_after, runs_stored_answer, list_stored_after, work_stored_after};

use answer::Answer;
use checks::limits;
use factors::factorization::factorization_ranked;
use factors::suffix_table::suffix_table_ranked;
use table_store::store::{TableName, TableStore};

// The Lyndon array of a text of bytes.
pub fn lyndon_array_stored(
    store: &TableStore,
    name: TableName,
    text: &[u8],
    out: &mut [u32],
) -> Answer
    ensures answer { result ≡ array_stored_answer (lookup store.now name) text.now (length out.old) }
    ensures content { out.new ≡ array_stored_after (lookup store.now name) text.now out.old }
    ensures step { result_with result (out.new ∷ []) ≡ result_of store.now (use_table name (array text.now out.old)) }
{
    match store.look_up(name) {
        Ok(table) => array::bytes::lyndon_array_ranked(text, limits::RANKED, &table, out),
        Err(refusal) => Answer::from(refusal),
    }
}

// The starts of its Lyndon factors.
pub fn factorization_stored(
    store: &TableStore,
    name: TableName,
    text: &[u8],
    out: &mut [u32],
) -> Answer
    ensures answer { result ≡ factorization_stored_answer (lookup store.now name) text.now (length out.old) }
    ensures content { out.new ≡ factors_stored_after (lookup store.now name) text.now out.old }
    ensures step { result_with result (out.new ∷ []) ≡ result_of store.now (use_table name (factorization text.now out.old)) }
{
    match store.look_up(name) {
        Ok(table) => factorization_ranked(text, limits::RANKED, &table, out),
        Err(refusal) => Answer::from(refusal),
    }
}

// Its Lyndon suffix table.
pub fn suffix_table_stored(
    store: &TableStore,
    name: TableName,
    text: &[u8],
    out: &mut [u32],
) -> Answer
    ensures answer { result ≡ suffix_table_stored_answer (lookup store.now name) text.now (length out.old) }
    ensures content { out.new ≡ suffix_table_stored_after (lookup store.now name) text.now out.old }
    ensures step { result_with result (out.new ∷ []) ≡ result_of store.now (use_table name (suffix_table text.now out.old)) }
{
    match store.look_up(name) {
        Ok(table) => suffix_table_ranked(text, limits::RANKED, &table, out),
        Err(refusal) => Answer::from(refusal),
    }
}

// Its left Lyndon forest.
pub fn left_forest_stored(
    store: &TableStore,
    name: TableName,
    text: &[u8],
    first: &mut [u32],
    past: &mut [u32],
) -> Answer
    ensures answer { result ≡ left_forest_stored_answer (lookup store.now name) text.now (length first.old) (length past.old) }
    ensures starts { first.new ≡ left_first_stored_after (lookup store.now name) text.now first.old past.old }
    ensures ends { past.new ≡ left_past_stored_after (lookup store.now name) text.now first.old past.old }
    ensures step { result_with result (first.new ∷ past.new ∷ []) ≡ result_of store.now (use_table name (left_forest text.now first.old past.old)) }
{
    match store.look_up(name) {
        Ok(table) => left_forest::left_forest_ranked(text, limits::RANKED, &table, first, past),
        Err(refusal) => Answer::from(refusal),
    }
}

// All its runs.
pub fn runs_stored(
    store: &TableStore,
    name: TableName,
    text: &[u8],
    work: &mut [u32],
    list: &mut [u32],
) -> Answer
    ensures answer { result ≡ runs_stored_answer (lookup store.now name) text.now (length work.old) (length list.old) }
    ensures arrays { work.new ≡ work_stored_after (lookup store.now name) text.now work.old list.old }
    ensures entries { list.new ≡ list_stored_after (lookup store.now name) text.now work.old list.old }
    ensures step { result_with result (work.new ∷ list.new ∷ []) ≡ result_of store.now (use_table name (runs text.now work.old list.old)) }
{
    match store.look_up(name) {
        Ok(table) => array::runs::runs_ranked(text, &table, work, list),
        Err(refusal) => Answer::from(refusal),
    }
}
