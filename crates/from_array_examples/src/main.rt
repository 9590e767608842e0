// The examples that document 01 works by hand of arrays alone: K8, K10, K11, K12, the three small
// ones and the entry that 32 bits would not hold, each executed and matched. What is expected of a
// call is proved too: each `expect` asks for it. Nothing is assumed.
#![tactic(auto)]

ghost use Rattle.std.specs.Prelude.{◌≡◌, length};
ghost use Rattle.answer.specs.Answers.{number, value};
ghost use Rattle.from_array.specs.Answers.{reconstruct_answer, right_forest_answer};
ghost use Rattle.from_array.specs.Theorems.{text_after, right_first_after, right_past_after};

use check::expect;

// `reconstruct` answers with the number and value, and leaves `wanted` in the text buffer.
// What is said is a number, as the documents have it.
fn expect_text(array: &[u32], text: &mut [u32], said: u32, with: u32, wanted: &[u32])
    requires number_said { number (reconstruct_answer array.now (length text.old)) ≡ said }
    requires value_said { value (reconstruct_answer array.now (length text.old)) ≡ «with» }
    requires text_left { text_after array.now text.old ≡ wanted.now }
{
    let answer = from_array::reconstruct(array, text);
    expect(answer.number() == said);
    expect(answer.value() == with);
    expect(&*text == wanted);
}

// `right_forest` answers with the number and value, and leaves what is wanted in FIRST and PAST.
// What is said is a number, as the documents have it.
fn expect_forest(
    array: &[u32],
    first: &mut [u32],
    past: &mut [u32],
    said: u32,
    with: u32,
    wanted_first: &[u32],
    wanted_past: &[u32],
)
    requires number_said { number (right_forest_answer array.now (length first.old) (length past.old)) ≡ said }
    requires value_said { value (right_forest_answer array.now (length first.old) (length past.old)) ≡ «with» }
    requires first_left { right_first_after array.now first.old past.old ≡ wanted_first.now }
    requires past_left { right_past_after array.now first.old past.old ≡ wanted_past.now }
{
    let answer = from_array::right_forest(array, first, past);
    expect(answer.number() == said);
    expect(answer.value() == with);
    expect(&*first == wanted_first);
    expect(&*past == wanted_past);
}

// K8: the array of `aabb`.
fn k8() {
    let mut first = [9u32, 9, 9, 9];
    let mut past = [9u32, 9, 9, 9];
    expect_forest(
        &[4, 3, 1, 1],
        &mut first,
        &mut past,
        0,
        4,
        &[0, 0, 1, 1],
        &[0, 4, 3, 4],
    );
}

// K10, document 003's example.
fn k10() {
    let mut text = [9u32, 9, 9, 9, 9, 9, 9, 9, 9, 9];
    expect_text(
        &[2, 1, 5, 2, 1, 2, 1, 3, 2, 1],
        &mut text,
        0,
        10,
        &[8, 9, 3, 6, 7, 4, 5, 0, 1, 2],
    );
}

// K11: refusal 8 at 1. Both calls refuse alike, and no buffer is touched.
fn k11() {
    let mut text = [9u32, 9, 9];
    expect_text(&[2, 2, 1], &mut text, 8, 1, &[9, 9, 9]);
    let mut first = [9u32, 9, 9];
    let mut past = [9u32, 9, 9];
    expect_forest(
        &[2, 2, 1],
        &mut first,
        &mut past,
        8,
        1,
        &[9, 9, 9],
        &[9, 9, 9],
    );
}

// K12, with a place past those written.
fn k12() {
    let mut text = [9u32, 9, 9, 9];
    expect_text(&[3, 1, 1], &mut text, 0, 3, &[0, 2, 1, 9]);
}

// The three small examples.
fn small() {
    let mut text = [9u32, 9];
    expect_text(&[1, 1], &mut text, 0, 2, &[1, 0]);
    let mut long = [9u32, 9];
    expect_text(&[1, 2], &mut long, 7, 1, &[9, 9]);
    let mut zero = [9u32, 9];
    expect_text(&[1, 0], &mut zero, 6, 1, &[9, 9]);
}

// An entry whose sum with its position 32 bits would not hold (document 01, "Traps on the way").
fn wide_entry() {
    let mut text = [9u32, 9];
    expect_text(&[1, 4294967295], &mut text, 7, 1, &[9, 9]);
}

fn main() {
    k8();
    k10();
    k11();
    k12();
    small();
    wide_entry();
}
