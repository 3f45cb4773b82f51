// A whole run: the entries of the steps, written into the caller's words; or its end alone. The host's bank is no array, for the reason in settling/bank.rt.
ghost use Rattle.std.specs.Prelude.{◌≡◌, true, false, cond, ◌≤◌, length};
ghost use Rattle.plan.specs.Whole.{plan_of};
ghost use Rattle.plan.specs.Run.{end_of};
ghost use Rattle.plan.specs.Steps.{coming_of};
ghost use Rattle.words.specs.Counts.{zero_counts};
ghost use Rattle.giving.specs.Places.{PlacesIn, settled_of};
ghost use Rattle.planner.specs.Coming.{coming};
ghost use Rattle.request.specs.Host.{with_bytes};
ghost use Rattle.runs.specs.Ran.{RanIs, StepsTo, stride_of};

use giving::Places;
use object::Verdict;
use plan::End;
use planner::{Course, Planner};
use request::Request;
use starts::fresh;

// The words from one entry to the next. `kept` is no const parameter: with two instances of `steps` the compiler joins the step with neither, and a run takes 2.6 to 5.6 times as long (tried and measured).
fn stride(kept: bool) -> usize
    ensures { result ≡ stride_of kept }
{
    if kept { 11 } else { 0 }
}

// The bank's words as the entries leave them; where they are only counted, nothing asks for it.
fn settled(kept: bool, bank: &mut [u64], places: Places, plan: &[u64])
    requires { kept ≡ true → PlacesIn plan.now places }
    ensures { bank.new ≡ cond kept (settled_of bank.old plan.now places) bank.old }
{
    if kept {
        settling::settle(bank, places, plan);
    }
}

// Steps to the end, or to an entry that has no room. The counts are kept beside the planner's, which the compiler then drops: both would have to stand until it is known that there is room.
fn steps(start: Planner, bank: &mut [u64], kept: bool, plan: &mut [u64]) -> End
    requires { (start.counts ≡ zero_counts) × (kept ≡ false → 11 ≤ length plan.old) }
    ensures { StepsTo kept (coming start) plan.old bank.old plan.new bank.new result }
{
    let stride = stride(kept);
    let mut places = giving::no_places();
    let mut p = start;
    let mut n = start.counts;
    loop {
        let s = p.step();
        match s.given {
            Ok(entry) => {
                let at = n.entries as usize * stride;
                if plan.len() - at < 11 {
                    break;
                }
                let g = giving::give(plan, at, places, n, entry);
                n = g.counts;
                places = g.places;
                p = s.planner;
            }
            Err(stop) => {
                settled(kept, bank, places, plan);
                // A refused load's size: by `if let` and no `map`, as `set_words` is called for what it writes and gives no value.
                if let Some(size) = stop.size {
                    settling::set_words(bank, size);
                }
                return words::end_of(n, stop.end.verdict);
            }
        }
    }
    settled(kept, bank, places, plan);
    words::end_of(n, Verdict::Full)
}

// All of a request's steps: in the run's object the one caller of `fresh`, and of `steps`, so that the compiler joins them and all that they call. A plan without an entry needs no step; nor does a copy plan where entries are only counted, and `steps` counts scaled plans.
// One match on the course, with a guard, was tried: a run then had 5 to 6 % more instructions and took 6 to 12 % longer.
fn planned(object: &[u8], q: Request, bank: &mut [u64], kept: bool, plan: &mut [u64]) -> End
    requires { kept ≡ false → 11 ≤ length plan.old }
    ensures { StepsTo kept (coming_of (plan_of (with_bytes object.now q))) plan.old bank.old plan.new bank.new result }
{
    let p = fresh(object, q);
    let course = p.course;
    if let Course::Over(v) = course {
        return words::end_of(p.counts, v);
    }
    if !kept {
        if let Course::Copy(_, place) = course {
            return counting::count_entries(place.copy);
        }
    }
    steps(p, bank, kept, plan)
}

// Entries of eleven words until the plan ends or the buffer is full; words beyond the last entry are left alone, and so are words of the bank that no entry sets.
pub fn run(object: &[u8], q: Request, bank: &mut [u64], plan: &mut [u64]) -> End
    ensures { RanIs object.now q.opcode q.scissor q.mode q.address plan.old bank.old plan.new bank.new result }
{
    planned(object, q, bank, true, plan)
}

// The end of the whole plan, which a run with room for all of its entries gives.
pub fn count(object: &[u8], q: Request) -> End
    ensures { result ≡ end_of (plan_of (with_bytes object.now q)) }
{
    let mut none = [0u64; 1];
    let mut entry = [0u64; 11];
    planned(object, q, &mut none, false, &mut entry)
}
