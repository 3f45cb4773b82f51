// The two files: a bank of 136 words, and records of 64 bytes.
ghost use Rattle.std.specs.Prelude.{◌≡◌, ℕ, ◌%◌, min, take};
ghost use Rattle.object.specs.Layout.{Held, read};
ghost use Rattle.plan.specs.Check.{request_at};
ghost use Rattle.plan.specs.Whole.{plan_of};
ghost use Rattle.request.specs.Host.{with_bytes};
ghost use Rattle.giving.specs.Host.{bank_from};
ghost use Rattle.replay.specs.Outcome.{words_in};
ghost use Rattle.replay.specs.Steps.{replayed_of};

use crate::record::{Replayed, run_and_step};
use object::{OBJECT_BYTES, field_from};
use request::{CASE_BYTES, Request};

// A bank's words, eight bytes each, read by place as every field is: over chunks, the library's `from_be_bytes` would need a law to the definition `read`.
pub(crate) fn bank_of(bytes: &[u8; 1088]) -> [u64; 136]
    ensures { result ≡ words_in 136 bytes.now }
{
    let mut numbers = [0u64; 136];
    for k in 0..136 {
        numbers[k] = field_from(bytes, 8 * k, 8);
    }
    numbers
}

// The number in `n` bytes, or `most` where that is less.
fn at_most(s: &[u8], at: usize, n: usize, most: usize) -> usize
    requires { Held s.now at n }
    ensures { result ≡ min most (read s.now at n) }
{
    most.min(field_from(s, at, n) as usize)
}

// What a record asks besides its object. It is longer than a case, so the case is never short.
fn asked(bytes: &[u8; 64]) -> Request
    ensures { (n : ℕ) → with_bytes (take n bytes.now) result ≡ request_at n bytes.now }
{
    request::from_bytes(bytes).unwrap()
}

// A case, how many of the object's bytes the planner gets, and the words of its buffer; the chunk has these modulo 121.
pub(crate) fn record_replayed(bytes: &[u8; 64], stored: [u64; 136]) -> Replayed
    ensures { result ≡ replayed_of (plan_of (request_at (min 40 (read bytes.now 61 1)) bytes.now)) (min 2816 (read bytes.now 62 2)) (min 2816 (read bytes.now 62 2) % 121) (bank_from stored) }
{
    // Room for every plan of the list, and for every chunk.
    let mut plan = [0; 2816];
    let mut part = [0; 121];
    let count = at_most(bytes, CASE_BYTES, 1, OBJECT_BYTES);
    let room = at_most(bytes, CASE_BYTES + 1, 2, plan.len());
    let short = room % part.len();
    let q = asked(bytes);
    run_and_step(
        &bytes[..count],
        q,
        stored,
        &mut plan[..room],
        &mut part[..short],
    )
}
