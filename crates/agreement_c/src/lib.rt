// How far two words agree, exported to C for the benchmark and the tests alone: no part of the library.
// A slice is a pointer and a length in C; that pointers are valid for their lengths is the C caller's part.
#![tactic(auto)]

ghost use Rattle.std.specs.Prelude.{◌≡◌};
ghost use Rattle.letters.specs.Ranks.{rank_row};
ghost use Rattle.agreement.specs.CommonPrefix.{common_prefix};

// Eight equal bytes at a time.
#[unsafe(no_mangle)]
pub extern "C" fn agreement_common_prefix(keys: &[u8; 256], u: &[u8], v: &[u8]) -> usize
    ensures result { result ≡ common_prefix (rank_row keys.now u.now) (rank_row keys.now v.now) }
{
    agreement::common_prefix(keys, u, v)
}

// One letter after another.
#[unsafe(no_mangle)]
pub extern "C" fn agreement_common_prefix_singly(keys: &[u8; 256], u: &[u8], v: &[u8]) -> usize
    ensures result { result ≡ common_prefix (rank_row keys.now u.now) (rank_row keys.now v.now) }
{
    agreement::common_prefix_singly(keys, u, v)
}
