// Words put into a buffer that the caller lends.
ghost use Rattle.std.specs.Prelude.{◌≡◌, ◌≤◌, ◌+◌, length};
ghost use Rattle.std.proofs.Math.Seq.{paste};

// All of `from`, at a place of `to`.
pub fn put(to: &mut [u64], at: usize, from: &[u64])
    requires { at + length from.now ≤ length to.old }
    ensures { to.new ≡ paste to.old at from.now (length from.now) }
{
    to[at..at + from.len()].copy_from_slice(from);
}

// Eleven words. By the slice's own copy, as a call of `put` would be no shorter, and the number copied would no longer be a constant.
pub fn store(plan: &mut [u64], at: usize, words: [u64; 11])
    requires { at + 11 ≤ length plan.old }
    ensures { plan.new ≡ paste plan.old at words 11 }
{
    plan[at..at + 11].copy_from_slice(&words);
}
