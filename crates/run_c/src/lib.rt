// The run, the count and one entry done to a bank, as C links them; crates/visorlongan has the functions and says what the words are.
#![tactic(auto)]

ghost use Rattle.std.specs.Prelude.{◌≡◌};
ghost use Rattle.applying.specs.Applied.{applied};
ghost use Rattle.version.specs.Version.{version_of};
ghost use Rattle.visorlongan.specs.Host.{left, host_run, counted, host_count, host_apply};

#[unsafe(no_mangle)]
pub extern "C" fn visor_run(
    object: &[u8],
    request: &[u64],
    bank: &mut [u64],
    plan: &mut [u64],
    end: &mut [u64],
) -> u64
    ensures { left result bank.new plan.new end.new ≡ host_run object.now request.now bank.old plan.old end.old }
{
    visorlongan::visor_run(object, request, bank, plan, end)
}

#[unsafe(no_mangle)]
pub extern "C" fn visor_count(object: &[u8], request: &[u64], end: &mut [u64]) -> u64
    ensures { counted result end.new ≡ host_count object.now request.now end.old }
{
    visorlongan::visor_count(object, request, end)
}

#[unsafe(no_mangle)]
pub extern "C" fn visor_apply(entry: &[u64], bank: &mut [u64]) -> u64
    ensures { applied result bank.new ≡ host_apply entry.now bank.old }
{
    visorlongan::visor_apply(entry, bank)
}

#[unsafe(no_mangle)]
pub extern "C" fn visor_version() -> u64
    ensures { result ≡ version_of 0 8 0 }
{
    visorlongan::visor_version()
}
