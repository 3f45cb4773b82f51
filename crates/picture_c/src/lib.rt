// The writer of copy objects, as C links it: crates/picture has the function. An object of its own in the library, so that the run and the step keep their code.
//
// out      any number of bytes; an object is written to the first 40
#![tactic(auto)]

ghost use Rattle.std.specs.Prelude.{◌≡◌};
ghost use Rattle.picture.specs.Writer.{written_number, wrote_of};

#[unsafe(no_mangle)]
pub extern "C" fn visor_write_copy(
    width: u64,
    height: u64,
    fmt: u64,
    siz: u64,
    pointer: u32,
    out: &mut [u8],
) -> u64
    ensures { (result ≡ written_number (wrote_of width height fmt siz pointer out.old).answer) × (out.new ≡ (wrote_of width height fmt siz pointer out.old).out) }
{
    picture::number(picture::write_copy(width, height, fmt, siz, pointer, out))
}
