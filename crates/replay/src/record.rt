// All that is replayed of a record.
ghost use Rattle.std.specs.Prelude.{◌≡◌, length};
ghost use Rattle.plan.specs.Whole.{plan_of};
ghost use Rattle.giving.specs.Host.{bank_from};
ghost use Rattle.request.specs.Host.{with_bytes};
ghost use Rattle.replay.specs.Steps.{replayed_of};

use crate::outcome::{Outcome, run_into};
use crate::steps::{Digests, mixed, stepped};
use banks::{bank_from, words_of};
use plan::End;
use request::Request;

// A run, the end of the whole plan, its steps, and a run and steps mixed, if the plan has an entry beyond the chunk.
#[derive(Clone, Copy)]
pub struct Replayed {
    pub run: Outcome,
    pub end: End,
    pub steps: Digests,
    pub mixed: Option<Digests>,
}

pub(crate) fn run_and_step(
    object: &[u8],
    q: Request,
    stored: [u64; 136],
    plan: &mut [u64],
    chunk: &mut [u64],
) -> Replayed
    ensures { result ≡ replayed_of (plan_of (with_bytes object.now q)) (length plan.old) (length chunk.old) (bank_from stored) }
{
    let bank = bank_from(&stored);
    let mut words = words_of(bank);
    let run = run_into(object, q, &mut words, plan);
    let end = runs::count(object, q);
    let steps = stepped(object, q, bank);
    let longer = ((chunk.len() / 11) as u64) < end.entries;
    let mixed = longer.then(|| mixed(object, q, &stored, chunk));
    Replayed {
        run,
        end,
        steps,
        mixed,
    }
}
