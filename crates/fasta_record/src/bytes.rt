// The bytes of a FASTA input, sorted by their numbers. Contracts cite `specs/Bytes.antt`. Nothing is assumed.
ghost use Rattle.std.specs.Prelude.{◌≡◌, drop};
ghost use Rattle.fasta_record.specs.Bytes.{kind_of, letter_of, name_byte_of, starts_with};

// The byte that a header line begins with.
pub const HEADER_MARK: u8 = b'>';

// The byte that ends a line.
pub const LINE_END: u8 = b'\n';

// What a byte of the sequence lines is.
#[derive(Clone, Copy, Debug, PartialEq, Eq)]
pub enum Kind {
    // A to Z or a to z.
    Letter,
    // LF.
    LineEnd,
    // CR.
    CarriageReturn,
    // '>'.
    HeaderMark,
    // Any other byte.
    Unfit,
}

// What a byte after '>' is to the name.
#[derive(Clone, Copy, Debug, PartialEq, Eq)]
pub enum NameByte {
    // 33 to 126: a byte of the name.
    Part,
    // Space, tab, CR or LF: the name is over.
    Past,
    // Any other byte.
    Foreign,
}

// What a byte is in the sequence lines.
impl From<u8> for Kind {
    ghost from_gives = { λ byte kind. kind ≡ kind_of byte };

    fn from(byte: u8) -> Kind {
        match byte {
            b'A'..=b'Z' | b'a'..=b'z' => Kind::Letter,
            b'\n' => Kind::LineEnd,
            b'\r' => Kind::CarriageReturn,
            b'>' => Kind::HeaderMark,
            _ => Kind::Unfit,
        }
    }
}

// What a byte is in a name.
impl From<u8> for NameByte {
    ghost from_gives = { λ byte sort. sort ≡ name_byte_of byte };

    fn from(byte: u8) -> NameByte {
        match byte {
            b' ' | b'\t' | b'\r' | b'\n' => NameByte::Past,
            33..=126 => NameByte::Part,
            _ => NameByte::Foreign,
        }
    }
}

// Whether `byte` stands at `at`.
pub(crate) fn stands_at(byte: u8, input: &[u8], at: usize) -> bool
    ensures result { result ≡ starts_with byte (drop at input.now) }
{
    input.get(at) == Some(&byte)
}

// What is handed on for the letter `byte`: a to z become A to Z, any other byte stays.
pub fn letter_of(byte: u8) -> u8
    ensures result { result ≡ letter_of byte }
{
    byte.to_ascii_uppercase()
}
