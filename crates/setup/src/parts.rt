// The parts of a scaled plan that its passes start from.
ghost use Rattle.checks.specs.Known.{PassedScaled};
ghost use Rattle.setup.specs.Parts.{SetUpIs};

use object::{ObjBg, Verdict};
use plan::{Clip, First, Scaled, Start};
use request::Request;

// The clipped frame, where it starts in the image, what no pass changes, and the first strip.
#[derive(Clone, Copy)]
pub struct SetUp {
    pub clip: Clip,
    pub start: Start,
    pub scaled: Scaled,
    pub first: First,
}

// The parts, or the verdict of a plan that has no pass: an empty frame, or strips that are too small.
// Joined with each caller: as a function of its own it would fill the parts of a verdict, which nothing reads, by a call of C's `memset`, and the archive for C calls nothing.
#[inline(always)]
pub fn set_up(bg: ObjBg, q: Request) -> Result<SetUp, Verdict>
    requires { PassedScaled bg q.scissor }
    ensures { SetUpIs bg q.scissor q.mode q.address result }
{
    let clip = scaled::clip_of(bg, q.scissor);
    if scaled::clip_empty(clip) {
        return Err(Verdict::Finished);
    }
    let start = scaled::start_of(bg, clip);
    let strips = scaled::scaled_of(bg, q.mode, q.address, clip, start);
    if scaled::slices_bad(strips) {
        return Err(Verdict::Slices);
    }
    Ok(SetUp {
        clip,
        start,
        scaled: strips,
        first: first::first_of(strips, start),
    })
}
