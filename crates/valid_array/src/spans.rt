// The spans of an array whose entries are in range. Contracts cite `specs/Checked.antt`. Nothing is assumed.
ghost use Rattle.std.specs.Prelude.{◌≡◌, ◌<◌, length, IfSome};
ghost use Rattle.std.specs.Option.{unwrap_or};
ghost use Rattle.words.specs.ArrayForest.{end_of};
ghost use Rattle.valid_array.specs.Checked.{EntriesInRange, CrossingFrom, LeastCrossing};

// Where the span at `i` ends. That a position lies inside the array is a clause here and below: a type of such positions would hold the length too, and be
// no plainer. `from_array` has the same function of a valid array: a public one for both would have a `requires`.
fn end_of(array: &[u32], i: usize) -> usize
    requires { i < length array.now }
    ensures result { result ≡ end_of array.now i }
{
    i + (array[i] as usize)
}

// The first span that crosses the end of the span at `i`, of those that follow one another from `i + 1` on.
fn crossing_from(array: &[u32], i: usize) -> Option<usize>
    requires entries_in_range { EntriesInRange array.now }
    requires i_in_bounds { i < length array.now }
    ensures result { CrossingFrom array.now i (unwrap_or result (length array.now)) }
    ensures result_in_bounds { IfSome result (λ k. k < length array.now) }
{
    let end = end_of(array, i);
    let mut k = i + 1;
    // A while loop: its step is the length of the span read. `successors` is no plainer, with a closure for the step and one for the end.
    while k < end {
        let next = end_of(array, k);
        if end < next {
            return Some(k);
        }
        k = next;
    }
    None
}

// The least crossing. Positions from the least crossing found so far on are not walked from, so no position is met twice.
pub(crate) fn least_crossing(array: &[u32]) -> Option<usize>
    requires { EntriesInRange array.now }
    ensures result { LeastCrossing array.now (unwrap_or result (length array.now)) }
    ensures result_in_bounds { IfSome result (λ k. k < length array.now) }
{
    // The length stands for none while it is sought: as an `Option` the check of an array of ones took a quarter to three quarters longer.
    let mut least = array.len();
    for i in 0..array.len() {
        if least <= i {
            break;
        }
        if let Some(k) = crossing_from(array, i) {
            least = least.min(k);
        }
    }
    (least < array.len()).then_some(least)
}
