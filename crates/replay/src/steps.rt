// Steps with a bank, and steps after a run: digests of what they answer and of the bank after them.
ghost use Rattle.std.specs.Prelude.{◌≡◌, ◌/◌, ◌≤◌, ◌<◌, length};
ghost use Rattle.plan.specs.Whole.{plan_of};
ghost use Rattle.giving.specs.Host.{bank_from};
ghost use Rattle.digest.specs.Fnv.{digest_from};
ghost use Rattle.planner.specs.Coming.{coming};
ghost use Rattle.request.specs.Host.{with_bytes};
ghost use Rattle.replay.specs.Steps.{answer_words, stepped_from, stepped_of};
ghost use Rattle.replay.specs.Passed.{Passed};

use crate::outcome::run_into;
use banks::{bank_from, words_of};
use digest::{BASIS, digest, digest_from};
use plan::Answer;
use planner::Planner;
use request::Request;
use tile::Bank;

#[derive(Clone, Copy)]
pub struct Digests {
    pub answers: u64,
    pub bank: u64,
}

fn answer_into(hash: u64, a: Answer) -> u64
    ensures { result ≡ digest_from hash (answer_words a) }
{
    match a {
        Ok(entry) => {
            let words = words::entry_words(entry);
            digest_from(hash, &words)
        }
        Err(end) => {
            let numbers = giving::end_numbers(end);
            digest_from(hash, &numbers)
        }
    }
}

// To the end, and three steps beyond it.
fn steps_from(start: Planner, bank: Bank, before: u64) -> Digests
    ensures { result ≡ stepped_from before (coming start) bank }
{
    let mut p = start;
    let mut b = bank;
    let mut answers = before;
    let mut ends: u64 = 0;
    while ends < 4 {
        let s = p.step_with(b);
        let answer = s.answer;
        answers = answer_into(answers, answer);
        ends += u64::from(answer.is_err());
        p = s.planner;
        b = s.bank;
    }
    let words = words_of(b);
    let bank = digest(&words);
    Digests { answers, bank }
}

pub(crate) fn stepped(object: &[u8], q: Request, bank: Bank) -> Digests
    ensures { result ≡ stepped_of (plan_of (with_bytes object.now q)) bank }
{
    let p = starts::fresh(object, q);
    steps_from(p, bank, BASIS)
}

// Steps whose entries a run has written already.
fn pass_over(start: Planner, n: u64) -> Planner
    requires { n ≤ length (coming start).entries }
    ensures { Passed n (coming start) result }
{
    let mut p = start;
    for _ in 0..n {
        p = p.step().planner;
    }
    p
}

// A run into a chunk that is too short for the plan, then steps with the bank that the run left.
pub(crate) fn mixed(object: &[u8], q: Request, stored: &[u64; 136], chunk: &mut [u64]) -> Digests
    requires { length chunk.old / 11 < length (plan_of (with_bytes object.now q)).entries }
    ensures { result ≡ stepped_of (plan_of (with_bytes object.now q)) (bank_from stored.now) }
{
    let mut words = words_of(bank_from(stored));
    let run = run_into(object, q, &mut words, chunk);
    let rest = pass_over(starts::fresh(object, q), run.end.entries);
    steps_from(rest, bank_from(&words), run.entries)
}
