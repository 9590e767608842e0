// The list of all runs of a text of bytes; letters with one key count as the same.
ghost use Rattle.std.specs.Prelude.{◌≡◌, [], ◌∷◌, ◌+◌, ◌-◌, ◌*◌, ◌≤◌, ◌<◌, ltb, length, drop};
ghost use Rattle.answer.specs.Limits.{max_length};
ghost use Rattle.answer.specs.Content.{Written};
ghost use Rattle.agreement.specs.CommonPrefix.{common_prefix};
ghost use Rattle.array.specs.Core.RunExtent.{StoppedAt, ExtendedTo, LeftExtent, AtRoot};
ghost use Rattle.array.specs.Core.RunPass.{Listed, RoomAt, VisitReady, Visited, PassReady, OrderDone, FindReady, RunsFound};
ghost use Rattle.array.specs.Calls.{runs_answer, runs_ranked_answer, run_numbers, both_arrays};
ghost use Rattle.answer.specs.AfterCall.{content_after};
ghost use Rattle.letters.specs.Compared.{order_number};
ghost use Rattle.letters.specs.Keyed.{row};
ghost use Rattle.letters.specs.Ranks.{rank_row};
ghost use Rattle.letters.specs.RankLaws.{Bytes};
ghost use Rattle.words.specs.Decided.{decided_rising};
ghost use Rattle.words.specs.Laws.RunMarks.{end_bound};

use crate::joined::Joined;
use crate::text::Text;
use crate::{factor, joined};
use answer::Answer;
use checks::limits;
use letters::{Keyed, Order};
use std::cmp::Ordering;

// How it is measured how far two rests of a text agree.
trait Measure: Copy {
    // The letters on which the rests from i and from j on agree.
    fn agreement(self, text: Keyed<'_>, i: usize, j: usize) -> usize
        requires first { i ≤ length (row text) }
        requires second { j ≤ length (row text) }
        ensures result { result ≡ common_prefix (drop i (row text.entry)) (drop j (row text.entry)) };
}

// Eight bytes at a look.
#[derive(Clone, Copy)]
struct Eights;

impl Measure for Eights {
    #[tactic(auto, using(agreement::specs::CommonPrefixLaws::rests_agree))]
    fn agreement(self, text: Keyed<'_>, i: usize, j: usize) -> usize {
        agreement::common_prefix(text.keys, &text.text[i..], &text.text[j..])
    }
}

// One letter after another.
#[derive(Clone, Copy)]
struct Singly;

impl Measure for Singly {
    #[tactic(auto, using(agreement::specs::CommonPrefixLaws::rests_agree))]
    fn agreement(self, text: Keyed<'_>, i: usize, j: usize) -> usize {
        agreement::common_prefix_singly(text.keys, &text.text[i..], &text.text[j..])
    }
}

// The start of the letters before i that continue period p to the left.
fn start_of(text: Keyed<'_>, i: usize, p: usize) -> usize
    requires { i + p ≤ length (row text) }
    ensures result { LeftExtent (row text.entry) i p result }
{
    for s in (0..i).rev() {
        if text.differ(s, s + p) {
            return s + 1;
        }
    }
    0
}

// The entries found so far, in the first places of the list. No `Vec`, since there is no heap: the list is the caller's, and `count` is how many are found.
#[derive(Drop)]
struct Found<'a> {
    list: &'a mut [u32],
    count: usize,
}

impl Found<'_> {
    // Adds a run: three numbers, as C's list has them.
    fn push(&mut self, start: usize, last: usize, period: usize)
        requires room { 3 * self.old.count + 3 ≤ length self.old.list.now }
        requires small { (start ≤ max_length) × (last ≤ max_length) × (period ≤ max_length) }
        ensures same_list { self.new.list.ghost_name ≡ self.old.list.ghost_name }
        ensures content { Written self.old.list.now self.new.list.now (3 * self.old.count) (3 * self.new.count) (start ∷ last ∷ period ∷ []) }
        ensures count { self.new.count ≡ self.old.count + 1 }
    {
        let at = 3 * self.count;
        self.list[at] = start as u32;
        self.list[at + 1] = last as u32;
        self.list[at + 2] = period as u32;
        self.count += 1;
    }
}

// One pass of the join loop over a text by its keys. The order tells the two passes apart: runs that reach the end of the text are those of the rising one.
#[derive(Clone, Copy)]
struct Pass<'a, M> {
    text: Keyed<'a>,
    order: Order,
    measure: M,
}

impl<M: Measure> Pass<'_, M> {
    // How far the suffix at i agrees with the one behind the word joined there: on all letters that do, unless the two factors are the same; 0 at the
    // end of the text.
    fn extended(&self, buf: &[u32], i: usize, word: Joined) -> usize
        requires { StoppedAt (row self.now.text) buf.now i word.end word.agreed word.stop }
        ensures result { ExtendedTo (row self.now.text) i word.end result word.stop }
    {
        if self.text.len() <= word.end {
            return 0;
        }
        let Ordering::Greater = word.stop else {
            return word.agreed;
        };
        if word.agreed < buf[word.end] as usize {
            return word.agreed;
        }
        let more = self
            .measure
            .agreement(self.text, i + word.agreed, word.end + word.agreed);
        word.agreed + more
    }

    // Runs that end before `end` are among those of this pass.
    fn lists(&self, end: usize) -> bool
        requires { end ≤ length (row self.now.text) }
        ensures answer { result ≡ ltb end (end_bound (order_number self.now.order) (length (row self.now.text))) }
    {
        match self.order {
            Order::Rising => true,
            Order::Falling => end < self.text.len(),
        }
    }

    // Lists the run whose last root starts at i, if there is one: the next smaller suffix starts at `end`, and the two agree on k letters.
    fn list_at(&self, found: &mut Found<'_>, i: usize, end: usize, k: usize)
        requires at_root { AtRoot (row self.now.text) i end k }
        requires room_at { RoomAt (order_number self.now.order) (row self.now.text) found.old.list.now found.old.count i }
        requires small { length (row self.now.text) ≤ max_length }
        ensures same_list { found.new.list.ghost_name ≡ found.old.list.ghost_name }
        ensures content { Listed (order_number self.now.order) (row self.now.text) found.old.list.now found.new.list.now i found.old.count found.new.count }
    {
        let p = end - i;
        let s = start_of(self.text, i, p);
        if i - s + k < p {
            return;
        }
        if !self.lists(end + k) {
            return;
        }
        found.push(s, end + k - 1, p);
    }

    // Joins at position i, and lists the run whose last root starts there.
    fn visit(&self, buf: &mut [u32], found: &mut Found<'_>, i: usize)
        requires { VisitReady (order_number self.now.order) (row self.now.text) buf.old found.old.list.now found.old.count i }
        ensures same_list { found.new.list.ghost_name ≡ found.old.list.ghost_name }
        ensures content { Visited (order_number self.now.order) (row self.now.text) buf.old buf.new found.old.list.now found.new.list.now i found.old.count found.new.count }
    {
        let word = joined::join(self.text, buf, i);
        let k = self.extended(buf, i, word);
        Joined { agreed: k, ..word }.store(buf, i);
        if let Ordering::Greater = word.stop {
            self.list_at(found, i, word.end, k);
        }
    }

    // Visits every position from the last to the first, so that the array stands in the buffer, and the runs in the list behind those found before.
    fn run(&self, buf: &mut [u32], found: &mut Found<'_>)
        requires { PassReady (order_number self.now.order) (row self.now.text) buf.old found.old.list.now found.old.count }
        ensures same_list { found.new.list.ghost_name ≡ found.old.list.ghost_name }
        ensures content { OrderDone decided_rising (order_number self.now.order) (row self.now.text) buf.new found.old.list.now found.new.list.now found.old.count found.new.count }
    {
        for i in (0..self.text.len()).rev() {
            self.visit(buf, found, i);
        }
        factor::restore_all(buf);
    }
}

// Both orders, the runs sorted by start and then by last position; the answer has their number.
fn find<M: Measure>(text: Keyed<'_>, measure: M, work: &mut [u32], list: &mut [u32]) -> Answer
    requires text { Bytes text.text.now }
    requires keys { Bytes text.keys.now }
    requires find_ready { FindReady (row text) work.old list.old }
    ensures content { RunsFound (row text.entry) work.old work.new list.old list.new result }
{
    let n = text.len();
    let mut found = Found { list, count: 0 };
    let rising = Pass {
        text,
        order: Order::Rising,
        measure,
    };
    rising.run(&mut work[..n], &mut found);
    let keys = letters::turned_table(text.keys);
    let falling = Pass {
        text: Keyed {
            keys: &keys,
            ..text
        },
        order: Order::Falling,
        measure,
    };
    falling.run(&mut work[n..2 * n], &mut found);
    let count = found.count;
    sorting::sort_triples(list, count);
    answer::accept(count as u32)
}

// All runs of a text of bytes: start, last position and period of each, by start and then by last position. Afterwards the work buffer
// holds the rising Lyndon array of the text and then the falling one. Refused by document 01's checks 1, 2, 4 and 5, the list's length being
// document 02's (E4).
#[tactic(auto, using(letters::specs::RankLaws::fitting_bytes, crate::proofs::AnswerLaws::plain_row, crate::proofs::AnswerLaws::found_as))]
pub fn runs(text: &[u8], work: &mut [u32], list: &mut [u32]) -> Answer
    ensures answer { result ≡ runs_answer text.now (length work.old) (length list.old) }
    ensures entries { list.new ≡ content_after result (run_numbers text.now) list.old }
    ensures arrays { work.new ≡ content_after result (both_arrays text.now) work.old }
{
    if let Err(refusal) = checks::runs(text.len(), list.len(), work.len()) {
        return Answer::from(refusal);
    }
    // Order 0 looks at no table: each byte counts as its own number.
    let keys = letters::rank_table(0, &[]);
    find(Keyed { text, keys: &keys }, Eights, work, list)
}

// The same by the ranks of a table: letters with one rank count as the same. Afterwards the work buffer holds the Lyndon array rising by
// rank and then the one falling by rank. Refused by document 02's checks 1, 2, 16, 4 and 5. It differs from `runs` in its check, keys and measure.
#[tactic(auto, using(letters::specs::RankLaws::fitting_bytes, crate::proofs::AnswerLaws::ranked_row, crate::proofs::AnswerLaws::found_as))]
pub fn runs_ranked(text: &[u8], table: &[u8], work: &mut [u32], list: &mut [u32]) -> Answer
    ensures answer { result ≡ runs_ranked_answer table.now text.now (length work.old) (length list.old) }
    ensures entries { list.new ≡ content_after result (run_numbers (rank_row table.now text.now)) list.old }
    ensures arrays { work.new ≡ content_after result (both_arrays (rank_row table.now text.now)) work.old }
{
    if let Err(refusal) = checks::ranked_runs(text.len(), table.len(), list.len(), work.len()) {
        return Answer::from(refusal);
    }
    let keys = letters::rank_table(limits::RANKED, table);
    find(Keyed { text, keys: &keys }, Singly, work, list)
}
