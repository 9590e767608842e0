// Text written into the front of a buffer, part by part.
// Contracts cite `specs/Decimal.antt` and `specs/Text.antt`. Nothing is assumed.
ghost use Rattle.std.specs.Prelude.{◌≡◌, ◌+◌, [], ◌∷◌, ◌++◌, length};
ghost use Rattle.bed.specs.Decimal.{decimal_of};
ghost use Rattle.bed.specs.Text.{Room, Wrote};

// The first `len` bytes of `out` are written. No `String`, since there is no heap.
#[derive(Drop)]
pub(crate) struct Text<'a> {
    out: &'a mut [u8],
    pub(crate) len: usize,
}

impl<'a> Text<'a> {
    // Nothing is written.
    pub(crate) fn new(out: &'a mut [u8]) -> Text<'a>
        ensures same_reference { result.out.ghost_name ≡ out.entry.ghost_name }
        ensures bytes { result.out.now ≡ out.old }
        ensures none { result.len ≡ 0 }
    {
        Text { out, len: 0 }
    }

    // Writes one byte.
    pub(crate) fn byte(&mut self, byte: u8)
        requires { Room self.old 1 }
        ensures wrote { Wrote self.old self.new (byte ∷ []) }
    {
        self.out[self.len] = byte;
        self.len += 1;
    }

    // Writes the bytes of `part`.
    pub(crate) fn bytes(&mut self, part: &[u8])
        requires { Room self.old (length part.now) }
        ensures wrote { Wrote self.old self.new part.now }
    {
        let end = self.len + part.len();
        self.out[self.len..end].copy_from_slice(part);
        self.len = end;
    }

    // Writes n in decimal.
    // By hand: what the library's `write!` writes is promised only where it returns `Ok`.
    pub(crate) fn decimal(&mut self, n: usize)
        requires { Room self.old (length (decimal_of n)) }
        ensures wrote { Wrote self.old self.new (decimal_of n) }
    {
        if n >= 10 {
            self.decimal(n / 10);
        }
        self.byte(b'0' + (n % 10) as u8);
    }

    // Writes the bytes of `label`, and behind them n in decimal.
    pub(crate) fn labelled(&mut self, label: &[u8], n: usize)
        requires { Room self.old (length label.now + length (decimal_of n)) }
        ensures wrote { Wrote self.old self.new (label.now ++ decimal_of n) }
    {
        self.bytes(label);
        self.decimal(n);
    }
}
