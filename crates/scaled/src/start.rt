// Where the clipped frame starts in the image.
ghost use Rattle.std.specs.Prelude.{◌≡◌, ◌+◌, ◌/◌, ◌%◌, ◌≤◌, ◌^◌, pos};
ghost use Rattle.measures.specs.Measure.{thirty_seconds, quarters, sampled_by, in_thirty_seconds};
ghost use Rattle.measures.specs.Range.{Below, Within};
ghost use Rattle.scaled.specs.Range.{Usable, Filled, StartIs};
ghost use Rattle.scaled.specs.Strip.{origin_of};

use measures::{Quarters, Scale, ThirtySeconds};
use object::ObjBg;
use plan::{Clip, Start};

// The image position under the frame's first pixel or line that the scissor leaves.
fn position_after(first: ThirtySeconds, cut: Quarters, scale: Scale) -> ThirtySeconds
    requires { (Below 16 first.0) × ((Below 16 cut.0) × (scale.0 ≤ 65535)) }
    ensures value { result ≡ in_thirty_seconds (pos (thirty_seconds first + sampled_by (quarters cut) scale.0)) }
    ensures result_bound { thirty_seconds result ≤ 2 ^ 26 }
{
    first + measures::sampled_by(cut, scale)
}

// How often an image's width or height goes into a position.
fn wraps(at: ThirtySeconds, size: ThirtySeconds) -> u64
    requires { 1 ≤ thirty_seconds size }
    ensures { result ≡ thirty_seconds at / thirty_seconds size }
{
    measures::thirty_seconds(at) / measures::thirty_seconds(size)
}

// What is left of the position then.
fn rest(at: ThirtySeconds, size: ThirtySeconds) -> ThirtySeconds
    requires { (thirty_seconds at ≤ 2 ^ 40) × (1 ≤ thirty_seconds size) }
    ensures { result ≡ in_thirty_seconds (pos (thirty_seconds at % thirty_seconds size)) }
{
    measures::of_thirty_seconds(measures::thirty_seconds(at) % measures::thirty_seconds(size))
}

// The origin moves down with the rows that the column carried, and back with the images that the row wrapped.
fn origin_of(origin: ThirtySeconds, down: ThirtySeconds, back: ThirtySeconds) -> ThirtySeconds
    requires { (Within 31 origin.0) × ((Below 31 down.0) × Below 31 back.0) }
    ensures { result ≡ in_thirty_seconds (origin_of origin.0 (thirty_seconds down) (thirty_seconds back)) }
{
    origin + down - back
}

pub fn start_of(bg: ObjBg, c: Clip) -> Start
    requires usable { Usable bg }
    requires filled { Filled c }
    ensures { StartIs bg c result }
{
    let source_w = measures::in_image(bg.image_w);
    let source_h = measures::in_image(bg.image_h);
    let cut = if c.flip { c.right } else { c.left };
    let x = position_after(bg.image_x, cut, bg.scale_w);
    let carry = wraps(x, source_w);
    let down = measures::of_rows(carry as i64);
    let y = position_after(bg.image_y, c.top, bg.scale_h) + down;
    let wrap = wraps(y, source_h);
    let back = measures::of_thirty_seconds(wrap * measures::thirty_seconds(source_h));
    Start {
        image_x: rest(x, source_w),
        image_y: rest(y, source_h),
        origin: origin_of(bg.image_y_orig, down, back),
        carry,
        wrap,
    }
}
