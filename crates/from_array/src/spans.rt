// The spans of a valid array, and positions marked from the span that holds them. Contracts cite `specs/Marked.antt` and the definitions of
// `words`. Nothing is assumed.
ghost use Rattle.std.specs.Prelude.{◌≡◌, ◌<◌, ◌≤◌, length};
ghost use Rattle.words.specs.ValidArray.{Valid};
ghost use Rattle.words.specs.ArrayForest.{end_of};
ghost use Rattle.answer.specs.Limits.{max_length};
ghost use Rattle.from_array.specs.Marked.{Marked};

// A valid array within the limit of length. That a position lies inside it each method asks for by itself: a type of such positions would hold the
// length too, and be no plainer.
#[derive(Clone, Copy)]
pub(crate) struct Spans<'a> {
    pub(crate) array: &'a [u32],
    ghost valid: { Valid array.now },
    ghost short: { length array.now ≤ max_length },
}

impl Spans<'_> {
    // Where the span at `i` ends.
    pub(crate) fn end_of(self, i: usize) -> usize
        requires i_in_bounds { i < length self.array.now }
        ensures result { result ≡ end_of self.entry.array.now i }
        ensures inside { result ≤ length self.entry.array.now }
    {
        i + (self.array[i] as usize)
    }

    // Writes `value` at each position whose innermost span is that of `i`: `i + 1`, the end of the span
    // there, and so on up to the end of the span at `i`.
    pub(crate) fn mark(self, out: &mut [u32], i: usize, value: u32)
        requires places { length out.old ≡ length self.array.now }
        requires i_in_bounds { i < length self.array.now }
        ensures content { Marked self.entry.array.now i value out.old out.new }
    {
        let end = self.end_of(i);
        let mut k = i + 1;
        // A while loop: its step is the span read. `successors` is no plainer, with a closure for the step and one for the end.
        while k < end {
            out[k] = value;
            k = self.end_of(k);
        }
    }
}
