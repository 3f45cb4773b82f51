// The two functions of hosts that step, as C links them; crates/stepping has the functions and says what the words are.
#![tactic(auto)]

ghost use Rattle.stepping.specs.Host.{StepIs, StartIs};

#[unsafe(no_mangle)]
pub extern "C" fn visor_start(object: &[u8], request: &[u64], state: &mut [u64]) -> u64
    ensures { StartIs object.now request.now state.old result state.new }
{
    stepping::visor_start(object, request, state)
}

#[unsafe(no_mangle)]
pub extern "C" fn visor_step(state: &mut [u64], bank: &mut [u64], out: &mut [u64]) -> u64
    ensures { StepIs state.old bank.old out.old result state.new bank.new out.new }
{
    stepping::visor_step(state, bank, out)
}
