// The boundary to C: functions over slices, each of which C passes as a pointer and a length. Words are 64 bits.
//
// request  7 words: opcode, scissor ulx uly lrx lry (signed), render mode (its low 32 bits), address
// bank   136 words: eight tiles of seventeen
// entry   11 words: kind, then its numbers
// end      4 words: verdict, entries, rectangles, tile words
//
// The object and the plan may have any length. A call with another number of words in one of the others answers 1 and changes nothing.
// A call that answers 0 has done all of its work: nothing is kept from one call to the next.
//
// Lengths stand as numbers in the types: the table above says what each is.
#![tactic(auto)]

ghost use Rattle.std.specs.Prelude.{◌≡◌};
ghost use Rattle.visorlongan.specs.Host.{left, host_run, counted, host_count, host_apply};
ghost use Rattle.applying.specs.Applied.{applied};
ghost use Rattle.version.specs.Version.{version_of};

use request::Request;

// A whole run: the entries go to `plan`, eleven words each, and what they set of the tiles goes to `bank`. All other words stay as they are.
pub fn visor_run(
    object: &[u8],
    request: &[u64],
    bank: &mut [u64],
    plan: &mut [u64],
    end: &mut [u64],
) -> u64
    ensures { left result bank.new plan.new end.new ≡ host_run object.now request.now bank.old plan.old end.old }
{
    let Ok(q) = Request::try_from(request) else {
        return 1;
    };
    let Some(bank) = bank.as_mut_array::<136>() else {
        return 1;
    };
    let Some(end) = end.as_mut_array() else {
        return 1;
    };
    let ended = runs::run(object, q, bank, plan);
    *end = giving::end_numbers(ended);
    0
}

// The end of the whole plan, with no buffer: how large a buffer `visor_run` wants is eleven words for each of its entries.
pub fn visor_count(object: &[u8], request: &[u64], end: &mut [u64]) -> u64
    ensures { counted result end.new ≡ host_count object.now request.now end.old }
{
    let Ok(q) = Request::try_from(request) else {
        return 1;
    };
    let Some(end) = end.as_mut_array() else {
        return 1;
    };
    let ended = runs::count(object, q);
    *end = giving::end_numbers(ended);
    0
}

// What one entry of a plan sets of the tiles. A host that follows a plan entry by entry has the bank of each of them by this.
pub fn visor_apply(entry: &[u64], bank: &mut [u64]) -> u64
    ensures { applied result bank.new ≡ host_apply entry.now bank.old }
{
    let Some(entry) = entry.as_array() else {
        return 1;
    };
    match bank.as_mut_array::<136>() {
        Some(bank) => u64::from(applying::apply(bank, entry).is_err()),
        None => 1,
    }
}

// The library's version, by which a host sees that its header and its archive belong together.
pub fn visor_version() -> u64
    ensures { result ≡ version_of 0 8 0 }
{
    version::number()
}
