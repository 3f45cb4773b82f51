// Address sums, and where the rows after a pass come from.
ghost use Rattle.std.specs.Prelude.{◌≡◌, pos};
ghost use Rattle.measures.specs.Range.{Within};
ghost use Rattle.plan.specs.Sound.{SoundScaled};
ghost use Rattle.plan.specs.Load.{source_address};
ghost use Rattle.plan.specs.Scaled.{advance as advance_of};
ghost use Rattle.loads.specs.Coming.{sum_out, moved_out};

use crate::rows::{less, plus, times};
use plan::{Scaled, Source};

// `source_address`: an address and an offset of either sign. `checked_add_signed` took longer: it makes the offset's size before it looks at the sign.
pub fn source_address(address: u64, offset: i64) -> Option<u64>
    ensures { sum_out result ≡ source_address address offset }
{
    if offset < 0 {
        address.checked_sub(offset.unsigned_abs())
    } else {
        address.checked_add(offset as u64)
    }
}

// The source after rows that were drawn or passed over: further on, or from the image's top again.
pub fn advance(z: Scaled, source: Source, rows: i64) -> Option<Source>
    requires sound_scaled { SoundScaled z }
    requires within { (Within 44 source.remain) × Within 44 rows }
    ensures { moved_out result ≡ advance_of z source rows }
{
    let remain = source.remain - rows;
    if 0 < remain {
        let pointer = source_address(source.pointer, times(rows, z.stride))?;
        return Some(Source { pointer, remain });
    }
    let past = rows - source.remain;
    let back = plus(times(past, z.stride), z.x_offset);
    let pointer = source_address(z.address, back)?;
    let remain = plus(remain, z.source_rows);
    Some(Source { pointer, remain })
}

// The same after a whole strip, whose rows are not negative: where the image goes on, one sum and one test.
pub fn forward(z: Scaled, source: Source) -> Option<Source>
    requires sound_scaled { SoundScaled z }
    requires within { Within 44 source.remain }
    ensures { moved_out result ≡ advance_of z source (pos z.image_rows) }
{
    let remain = less(source.remain, z.image_rows);
    if 0 < remain {
        let on = z.image_rows * z.stride;
        let pointer = source.pointer.checked_add(on)?;
        return Some(Source { pointer, remain });
    }
    advance(z, source, z.image_rows as i64)
}
