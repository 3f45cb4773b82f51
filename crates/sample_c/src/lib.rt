// What one cell of a copy background shows, as C links it; crates/sample has the function and says what the words are. An object of its own in the library, so that the run and the step keep their code.
#![tactic(auto)]

ghost use Rattle.std.specs.Prelude.{◌≡◌};
ghost use Rattle.sample.specs.Host.{cell_left, host_sample};

#[unsafe(no_mangle)]
pub extern "C" fn visor_sample(
    object: &[u8],
    scissor: &[u64],
    column: u64,
    line: u64,
    out: &mut [u64],
) -> u64
    ensures { cell_left result out.new ≡ host_sample object.now scissor.now column line out.old }
{
    sample::visor_sample(object, scissor, column, line, out)
}
