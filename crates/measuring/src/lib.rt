// The boundary to C for hosts that show how far a scaled plan's lines lie from their exact positions. The function is an object of its own in the library, so that the run and the step keep their code.
//
// request  7 words: as for `visor_run`
// drift    5 words for each rectangle: its first line, its strip, the distance there, and demand 3's limits behind and ahead; signed numbers modulo 2^64
// told     2 words: how many rectangles stand in `drift`, and 1 where demand 3's conditions hold for a scaled plan that is set up
//
// A call with another number of words in `request` or `told` answers 1 and changes nothing. `drift` may have any length: it takes the plan's first rectangles, and its words beyond them are left alone.
#![tactic(auto)]

ghost use Rattle.std.specs.Prelude.{◌≡◌};
ghost use Rattle.planner.specs.Coming.{coming};
ghost use Rattle.request.specs.Host.{with_bytes};
ghost use Rattle.small.specs.Small.{AllSmall};
ghost use Rattle.ruler.specs.Drifts.{SoundPlace};
ghost use Rattle.measuring.specs.Host.{begun_words, MovedIs, FilledIs, drifted, measured_of, host_drift};

use planner::Planner;
use request::Request;
use ruler::{Begun, Over, Place, Ruler};
use signed::word_of;
use words::put;

// A step of the planner: what was measured of its entry, if it is a rectangle, and the planner after it; or no rectangle is to come.
pub(crate) type Moved = Result<(Option<(Begun, Place)>, Planner), Over>;

fn words_of(r: Ruler, b: Begun) -> [u64; 5]
    ensures { result ≡ begun_words r b }
{
    let behind = word_of(r.behind());
    let ahead = word_of(ruler::ahead(r.h, b.strip));
    [b.line, word_of(b.strip), word_of(b.distance), behind, ahead]
}

fn step(r: Ruler, place: Place, p: Planner) -> Moved
    requires { (SoundPlace r place) × AllSmall (coming p).entries }
    ensures { MovedIs r place p result }
{
    let s = p.step();
    let entry = s.given.map_err(|_| Over)?;
    let measured = ruler::taken(r, place, entry)?;
    Ok((measured, s.planner))
}

// The rectangles of a plan, until there is no room or none is to come; how many they are. Over chunks of `drift` the entries that are passed over would need a loop of their own within.
fn fill(r: Ruler, start: Planner, drift: &mut [u64]) -> usize
    requires { AllSmall (coming start).entries }
    ensures { FilledIs r (coming start).entries drift.old drift.new result }
{
    let mut p = start;
    let mut place = ruler::place_of(r);
    let mut n: usize = 0;
    while drift.len() - n * 5 >= 5 {
        let Ok((measured, rest)) = step(r, place, p) else {
            break;
        };
        if let Some((b, next)) = measured {
            let words = words_of(r, b);
            put(drift, n * 5, &words);
            n += 1;
            place = next;
        }
        p = rest;
    }
    n
}

// The rectangles of a request's plan, and the two words told: how many they are, and whether the limits are proved of them.
fn measured(object: &[u8], q: Request, drift: &mut [u64]) -> [u64; 2]
    ensures { drifted 0 drift.new result ≡ measured_of (with_bytes object.now q) drift.old }
{
    match ruler::ruler_of(object, q) {
        Some(r) => {
            let p = starts::fresh(object, q);
            let n = fill(r, p, drift);
            let apt = u64::from(ruler::apt(r));
            [n as u64, apt]
        }
        None => [0, 0],
    }
}

// Each rectangle of a scaled plan: its strip, and how far it lies from its exact position.
pub fn visor_drift(object: &[u8], request: &[u64], drift: &mut [u64], told: &mut [u64]) -> u64
    ensures { drifted result drift.new told.new ≡ host_drift object.now request.now drift.old told.old }
{
    let Ok(q) = Request::try_from(request) else {
        return 1;
    };
    let Some(told) = told.as_mut_array() else {
        return 1;
    };
    *told = measured(object, q, drift);
    0
}
