// The factors in the output buffer while the array is being made; nothing here knows of letters.
ghost use Rattle.std.specs.Prelude.{◌≡◌, ◌+◌, ◌≤◌, ◌<◌, length, get_or};
ghost use Rattle.answer.specs.Limits.{max_length};
ghost use Rattle.array.specs.Core.Place.{factor_at, settled_at, restored_at};
ghost use Rattle.array.specs.Core.Fill.{HasRows, AllRestored};

// A factor: where it starts, its length, and on how many letters it is known to agree with what follows it and with its last part, as its last place
// remembers. Of a single letter nothing is remembered, and no letters are known to agree: 0 is their number and no mark.
#[derive(Clone, Copy)]
pub(crate) struct Factor {
    pub(crate) start: usize,
    pub(crate) length: usize,
    pub(crate) known: usize,
}

impl Factor {
    // The factor that starts at j.
    pub(crate) fn at(buf: &[u32], j: usize) -> Factor
        requires { (j < length buf.now) × (j + get_or buf.now j 0 ≤ length buf.now) }
        ensures factor { result ≡ factor_at buf.now j }
    {
        let length = buf[j] as usize;
        let known = if 1 < length {
            buf[j + length - 1] as usize
        } else {
            0
        };
        Factor {
            start: j,
            length,
            known,
        }
    }

    // The word of length w before the factor is a prefix of it: letters on which the word and what follows it agree with the factor, as what is
    // remembered tells; none where it does not tell.
    pub(crate) fn settled(self, buf: &[u32], w: usize) -> Option<usize>
        requires { (self.start + self.length ≤ length buf.now) × (self.length ≤ max_length) × (self.known < self.length) }
        ensures result { result ≡ settled_at buf.now self.start w self.length self.known }
    {
        if self.length <= w {
            return None;
        }
        if self.known < w {
            return Some(w);
        }
        if w + buf[self.start + w] as usize == self.length {
            return Some(w + self.known);
        }
        None
    }

    // Gives the last place of the factor its entry back.
    pub(crate) fn restore(self, buf: &mut [u32])
        requires { self.start + self.length ≤ length buf.old }
        ensures content { buf.new ≡ restored_at buf.old self.start self.length }
    {
        if 1 < self.length {
            buf[self.start + self.length - 1] = 1;
        }
    }
}

// Gives the last places of all factors their entries back.
#[tactic(auto, using(crate::proofs::Restoring::restoring))]
pub(crate) fn restore_all(buf: &mut [u32])
    requires { HasRows buf.old }
    ensures content { AllRestored buf.old buf.new }
{
    let mut j: usize = 0;
    // A while loop: the step is the length of the factor, not 1.
    while j < buf.len() {
        let factor = Factor::at(buf, j);
        factor.restore(buf);
        j += factor.length;
    }
}
