// What a run leaves: the end, and digests of the entries that stand and of the bank.
ghost use Rattle.std.specs.Prelude.{◌≡◌, length};
ghost use Rattle.plan.specs.Whole.{plan_of};
ghost use Rattle.request.specs.Host.{with_bytes};
ghost use Rattle.replay.specs.Outcome.{outcome_of, words_left};

use digest::digest;
use plan::End;
use request::Request;

// The first digest is that of a plan's words and not of answers, so these two are no `Digests`.
#[derive(Clone, Copy)]
pub struct Outcome {
    pub end: End,
    pub entries: u64,
    pub bank: u64,
}

// Whatever stood in the buffer.
pub(crate) fn run_into(object: &[u8], q: Request, bank: &mut [u64], plan: &mut [u64]) -> Outcome
    ensures value { result ≡ outcome_of (plan_of (with_bytes object.now q)) (length plan.old) bank.old }
    ensures bank { bank.new ≡ words_left (plan_of (with_bytes object.now q)) (length plan.old) bank.old }
{
    let end = runs::run(object, q, bank, plan);
    let n = 11 * end.entries as usize;
    let entries = digest(&plan[..n]);
    let bank = digest(bank);
    Outcome { end, entries, bank }
}
