// The library's version, as a number that grows with it.
#![tactic(auto)]

ghost use Rattle.std.specs.Prelude.{◌≡◌};
ghost use Rattle.version.specs.Version.{version_of};

const MAJOR: u64 = 0;

const MINOR: u64 = 8;

const PATCH: u64 = 0;

pub fn number() -> u64
    ensures { result ≡ version_of 0 8 0 }
{
    MAJOR * 65536 + MINOR * 256 + PATCH
}
