// How far two words of bytes agree from their starts, letters with one key taken as the same (the leaf of document 02, E3): one letter after another, or equal
// bytes eight at a time and then one letter after another.
//
// Contracts cite `specs/CommonPrefix.antt`, `specs/CommonPrefixLaws.antt`, `specs/Packed.antt` and the ranks of the crate `letters`. Nothing is assumed.
#![tactic(auto)]

ghost use Rattle.std.specs.Prelude.{◌≡◌, ◌+◌, ◌≤◌, length, take, drop};
ghost use Rattle.letters.specs.Ranks.{rank_row};
ghost use Rattle.agreement.specs.CommonPrefix.{common_prefix};
ghost use Rattle.agreement.specs.CommonPrefixLaws.{AlikeBelow};
ghost use Rattle.agreement.specs.Packed.{packed, unpacked};

// The eight bytes from k on as a number of 64 bits, the first lowest: document 02's word.
fn packed_at(x: &[u8], k: usize) -> u64
    requires { k + 8 ≤ length x.now }
    ensures number { result ≡ packed (take 8 (drop k x.now)) }
{
    let (eights, _) = x[k..].as_chunks();
    u64::from_le_bytes(eights[0])
}

// On how many of their eight bytes two such numbers agree, from the first on.
#[tactic(auto, using(crate::proofs::PackedParts::trailing_eight))]
fn common_bytes(x: u64, y: u64) -> usize
    ensures count { result ≡ common_prefix (unpacked 8 x) (unpacked 8 y) }
{
    (x ^ y).trailing_zeros() as usize / 8
}

// The length of the longest common prefix of two words, letters with one key taken as the same: one letter after another.
// The keys stand beside both words, not in a struct with each: the two share them.
pub fn common_prefix_singly(keys: &[u8; 256], u: &[u8], v: &[u8]) -> usize
    ensures result { result ≡ common_prefix (rank_row keys.now u.now) (rank_row keys.now v.now) }
{
    // Both are cut to one length, so that one test ends the loop.
    let shorter = u.len().min(v.len());
    u[..shorter]
        .iter()
        .zip(&v[..shorter])
        .take_while(|(a, b)| !letters::differ(keys, **a, **b))
        .count()
}

// The same, where the first k bytes are known to be equal.
#[tactic(auto, using(crate::proofs::PackedParts::rests))]
fn common_prefix_behind(keys: &[u8; 256], u: &[u8], v: &[u8], k: usize) -> usize
    requires equal { AlikeBelow u.now v.now k }
    ensures result { result ≡ common_prefix (rank_row keys.now u.now) (rank_row keys.now v.now) }
{
    k + common_prefix_singly(keys, &u[k..], &v[k..])
}

// The same, eight equal bytes at a time. The first bytes that differ end it if their keys differ; if not, and behind the last whole eight, it goes on
// one letter after another.
#[tactic(auto, using(crate::proofs::PackedParts::eights))]
pub fn common_prefix(keys: &[u8; 256], u: &[u8], v: &[u8]) -> usize
    ensures result { result ≡ common_prefix (rank_row keys.now u.now) (rank_row keys.now v.now) }
{
    let whole = u.len().min(v.len()) / 8 * 8;
    // A while loop: over the rows of eight bytes of both words, by `for` or in a chain, short words took a third longer.
    let mut k = 0;
    while k < whole {
        let x = packed_at(u, k);
        let y = packed_at(v, k);
        if x != y {
            k += common_bytes(x, y);
            if letters::differ(keys, u[k], v[k]) {
                return k;
            }
            break;
        }
        k += 8;
    }
    common_prefix_behind(keys, u, v, k)
}
