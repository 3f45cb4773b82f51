// The boundary to C for hosts that step: between two calls a planner stands in words that the host keeps. These functions are an object of their own in the library: compiled together with the run they would share its functions, and the run would then call what is now part of its loop.
//
// request  7 words: as for `visor_run`
// state   39 words: a planner, made by `visor_start`; a host copies them, and changes none
// bank   136 words: eight tiles of seventeen
// out     11 words: an entry, or an end: 9, verdict, entries, rectangles, tile words, zeros
//
// A call with another number of words, or with words that are no planner's, answers 1 and changes nothing.
#![tactic(auto)]

ghost use Rattle.std.specs.Prelude.{◌≡◌};
ghost use Rattle.giving.specs.Host.{words_after};
ghost use Rattle.planner.specs.Coming.{answer_in, GivenIn};
ghost use Rattle.stored.specs.Stored.{StoredIs};
ghost use Rattle.stepping.specs.Host.{answer_words, sets_in, Moved, StepIs, StartIs};

use planner::{Given, Planner};
use request::Request;
use stored_fields::State;

fn state_of(p: Planner) -> State
    ensures { StoredIs p result }
{
    stored::stored(p.course, p.counts)
}

fn out_words(given: Given) -> [u64; 11]
    ensures { result ≡ answer_words (answer_in given) }
{
    match given {
        Ok(entry) => words::entry_words(entry),
        Err(stop) => words::end_words(stop.end),
    }
}

// A load that is refused has set its tile's size: by `if let` and no `map`, as `set_words` gives no value.
#[tactic(auto, unfolding(giving::specs::Host::words_after))]
fn set_bank(bank: &mut [u64], given: Given)
    requires { GivenIn given }
    ensures { bank.new ≡ words_after bank.old (sets_in given) }
{
    match given {
        Ok(entry) => settling::set_words(bank, entry),
        Err(stop) => {
            if let Some(size) = stop.size {
                settling::set_words(bank, size);
            }
        }
    }
}

fn moved(p: Planner, state: &mut State, bank: &mut [u64], out: &mut [u64; 11])
    ensures { Moved p bank.old state.new bank.new out.new }
{
    let s = p.step();
    *state = state_of(s.planner);
    set_bank(bank, s.given);
    *out = out_words(s.given);
}

// One step: the answer goes to `out`, `bank` has what it sets, and `state` has the rest to come. After the end the same end, and nothing else changes.
pub fn visor_step(state: &mut [u64], bank: &mut [u64], out: &mut [u64]) -> u64
    ensures { StepIs state.old bank.old out.old result state.new bank.new out.new }
{
    let Some(bank) = bank.as_mut_array::<136>() else {
        return 1;
    };
    let Some(state) = state.as_mut_array() else {
        return 1;
    };
    let Some(out) = out.as_mut_array() else {
        return 1;
    };
    let Some(p) = stored::load(*state) else {
        return 1;
    };
    moved(p, state, bank, out);
    0
}

// The planner of a request, with its whole plan to come.
pub fn visor_start(object: &[u8], request: &[u64], state: &mut [u64]) -> u64
    ensures { StartIs object.now request.now state.old result state.new }
{
    let Ok(q) = Request::try_from(request) else {
        return 1;
    };
    let Some(state) = state.as_mut_array() else {
        return 1;
    };
    let p = starts::fresh(object, q);
    *state = state_of(p);
    0
}
