// The single words of a stored planner: signed numbers and counts, and tests of them that no sum overflows in.
#![tactic(auto)]

ghost use Rattle.std.specs.Prelude.{◌≡◌, ◌+◌, leb};
ghost use Rattle.std.specs.Int.{w64};
ghost use Rattle.std.proofs.Common.{to_z};
ghost use Rattle.signed.specs.Diff.{up, dn};
ghost use Rattle.stored_fields.specs.Test.{counts_test};

use words::Counts;

// How many words a planner has.
pub const STATE: usize = 39;

// A planner's words.
pub type State = [u64; STATE];

// How far a word, as a signed number, lies above 0, and how far below. Tests take these, so that none of their sums is signed.
pub fn above(n: u64) -> u64
    ensures { result ≡ up (to_z w64 n) }
{
    signed::positive(n.cast_signed())
}

pub fn below(n: u64) -> u64
    ensures { result ≡ dn (to_z w64 n) }
{
    n.cast_signed().min(0).unsigned_abs()
}

// Whether two numbers together are no more than m.
pub fn room(a: u64, b: u64, m: u64) -> bool
    ensures { result ≡ leb (a + b) m }
{
    a.checked_add(b).is_some_and(|sum| sum <= m)
}

// Counts that go with a course that has at most `left` entries to come. The tests are joined by `&`, without a short circuit: none has an effect or can fail, so the compiler is free to order and to join them.
pub fn counts_sound(n: Counts, left: u64) -> bool
    ensures { result ≡ counts_test n left }
{
    room(n.entries, left, 0x100_0000_0000) & (n.rectangles <= n.entries) & (n.line <= 65535)
}
