// 64-bit FNV-1a over words of eight bytes, the highest byte first.
#![tactic(auto)]

ghost use Rattle.std.specs.Prelude.{◌≡◌};
ghost use Rattle.digest.specs.Fnv.{fnv1a, word_into, digest_from, digest_of};

// The digest of no words.
pub const BASIS: u64 = 0xcbf2_9ce4_8422_2325;

// 64-bit FNV's prime, 2^40 + 435.
const PRIME: u64 = 0x100_0000_01b3;

#[tactic(auto, unfolding(crate::specs::Fnv::fnv1a))]
fn byte_into(h: u64, b: u8) -> u64
    ensures { result ≡ fnv1a h b }
{
    (h ^ u64::from(b)).wrapping_mul(PRIME)
}

#[tactic(auto, using(crate::proofs::Steps::bytes_of_word))]
fn word_into(h: u64, w: u64) -> u64
    ensures { result ≡ word_into 8 w h }
{
    let mut hash = h;
    for byte in w.to_be_bytes() {
        hash = byte_into(hash, byte);
    }
    hash
}

// Words after others that have been digested.
#[tactic(auto, unfolding(crate::specs::Fnv::digest_from))]
pub fn digest_from(before: u64, words: &[u64]) -> u64
    ensures { result ≡ digest_from before words.now }
{
    let mut hash = before;
    for word in words {
        hash = word_into(hash, *word);
    }
    hash
}

pub fn digest(words: &[u64]) -> u64
    ensures { result ≡ digest_of words.now }
{
    digest_from(BASIS, words)
}
