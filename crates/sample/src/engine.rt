// One cell of a copy background. The frame, a cell's column and a line's row are found by the planner's own functions; no strip is computed.
ghost use Rattle.std.specs.Prelude.{◌≡◌, false};
ghost use Rattle.plan.specs.Copy.{copy_empty};
ghost use Rattle.plan.specs.Sound.{SoundCopy};
ghost use Rattle.sample.specs.Engine.{sample_of};
ghost use Rattle.sample.specs.Cell.{cell_in};

use crate::types::Sample;
use checks::COPY;
use object::{Background, Scissor};
use plan::Copy;

fn cell_of(c: Copy, column: u64, line: u64) -> Sample
    requires { copy_empty c ≡ false → SoundCopy c }
    ensures { result ≡ cell_in c column line }
{
    if column < c.width && line < c.height {
        Sample::Texel {
            column: strips::column_at(c, column),
            row: strips::strip_row(c, line),
        }
    } else {
        Sample::Outside
    }
}

// The image's address has no part in it, and stands as 0.
pub fn sample(object: &[u8], scissor: Scissor, column: u64, line: u64) -> Sample
    ensures { result ≡ sample_of 4 object.now scissor column line }
{
    match checks::checked(object, COPY, scissor) {
        Ok(Background::Copy(bg)) => cell_of(strips::copy_of(bg, scissor, 0), column, line),
        Ok(Background::Scaled(_)) => unreachable!(),
        Err(v) => Sample::Refused(v),
    }
}
