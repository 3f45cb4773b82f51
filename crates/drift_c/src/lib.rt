// The measure of a scaled plan's rectangles, as C links it; crates/measuring has the function and says what the words are.
#![tactic(auto)]

ghost use Rattle.std.specs.Prelude.{◌≡◌};
ghost use Rattle.measuring.specs.Host.{drifted, host_drift};

#[unsafe(no_mangle)]
pub extern "C" fn visor_drift(
    object: &[u8],
    request: &[u64],
    drift: &mut [u64],
    told: &mut [u64],
) -> u64
    ensures { drifted result drift.new told.new ≡ host_drift object.now request.now drift.old told.old }
{
    measuring::visor_drift(object, request, drift, told)
}
