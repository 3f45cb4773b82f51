// The first strip, which the frame's top may cut.
ghost use Rattle.std.specs.Prelude.{◌≡◌, ◌+◌, ◌-◌, ◌*◌, ◌/◌, ◌≤◌, ◌^◌, pos, ◌+ℤ◌, ◌-ℤ◌, ◌≤ℤ◌, ◌<ℤ◌};
ghost use Rattle.std.specs.Int.{w64};
ghost use Rattle.std.proofs.Common.{SFits};
ghost use Rattle.measures.specs.Range.{Below, Around};
ghost use Rattle.plan.specs.Sound.{SoundScaled};
ghost use Rattle.first.specs.Near.{Near, FirstIs};
ghost use Rattle.first.specs.First.{image_offset_of, frame_offset_of, slice_start_of, hidden_of, count_of, image_row_of, CutIs};

use measures::{Scale, ThirtySeconds};
use plan::{First, Scaled, Start};

// The strip of the frame's first line: its number, where it starts, and what the frame's top cuts off it.
#[derive(Clone, Copy)]
pub(crate) struct Cut {
    pub(crate) slice: i64,
    pub(crate) start: i64,
    pub(crate) hidden: u64,
}

// The distance from the origin, in 1,024ths of an image row.
#[tactic(auto, unfolding(crate::specs::First::image_offset_of))]
fn image_offset(y: ThirtySeconds, origin: ThirtySeconds) -> i64
    requires { (Below 20 y.0) × Around 33 origin.0 }
    ensures value { result ≡ image_offset_of y.0 origin.0 }
    ensures around { Around 39 result }
{
    measures::of_position(y - origin)
}

// The same in 1,024ths of a frame line, rounded down to a whole line.
fn frame_offset(offset: i64, scale_h: Scale) -> i64
    requires around { Around 39 offset }
    requires bound { (1 ≤ scale_h.0) × (scale_h.0 ≤ 65535) }
    ensures value { result ≡ frame_offset_of offset scale_h.0 }
    ensures around { Around 49 result }
{
    measures::of_lines(signed::floor_div(offset, scale_h.0))
}

// A strip's rows or frame lines times its number.
fn slice_start(rows: u64, slice: i64) -> i64
    requires rows_bound { rows ≤ 2 ^ 29 }
    requires sfits { SFits w64 (slice_start_of rows slice) }
    ensures { result ≡ slice_start_of rows slice }
{
    rows as i64 * slice
}

// What the frame's top cuts off the strip.
fn hidden_of(offset: i64, start: i64) -> u64
    requires start_le_offset { (start ≤ℤ offset) × (offset <ℤ (start +ℤ pos (2 ^ 30))) }
    requires around { Around 49 offset }
    ensures result_value { pos result ≡ hidden_of offset start }
    ensures upper_bound { result ≤ 2 ^ 30 + 1024 }
{
    (offset - masks::clear10(start)) as u64
}

// The lines that are left of the strip, in 1,024ths.
fn count_of(start: i64, frame_rows: u64, hidden: u64) -> i64
    requires { (frame_rows ≤ 2 ^ 29) × (hidden ≤ 2 ^ 31) }
    ensures { result ≡ count_of start frame_rows (pos hidden) }
{
    masks::signed_low10(start) as i64 + frame_rows as i64 - hidden as i64
}

// The image row under the frame's first line.
fn image_row(start: i64, origin: ThirtySeconds, hidden: u64, source_rows: u64) -> u64
    requires around { (Around 61 start) × Around 33 origin.0 }
    requires hidden_bound { (hidden ≤ 2 ^ 40) × ((1 ≤ source_rows) × (source_rows ≤ 16383)) }
    ensures { result ≡ image_row_of start origin.0 (pos hidden) source_rows }
{
    let top = measures::whole_rows(origin);
    signed::rem_euclid(start + top + measures::whole(hidden) as i64, source_rows)
}

// The hidden lines in 1,024ths of an image row.
fn image_hidden_of(hidden: u64, scale_h: Scale) -> u64
    requires { (hidden ≤ 2 ^ 30 + 1024) × (scale_h.0 ≤ 65535) }
    ensures value { result ≡ hidden / 1024 * scale_h.0 }
    ensures upper_bound { result ≤ 2 ^ 37 }
{
    measures::whole(hidden) * scale_h.0
}

// A strip's rows less those that are hidden, which may be more.
fn rows_left(image_rows: u64, image_hidden: u64) -> i64
    requires { (image_rows ≤ 512) × (image_hidden ≤ 2 ^ 37) }
    ensures { result ≡ pos image_rows -ℤ pos (image_hidden / 1024) }
{
    image_rows as i64 - measures::whole(image_hidden) as i64
}

fn cut_of(z: Scaled, i: Start) -> Cut
    requires sound_scaled { SoundScaled z }
    requires near { Near i }
    ensures { CutIs z i result }
{
    let offset = frame_offset(image_offset(i.image_y, i.origin), z.scale_h);
    let slice = signed::floor_div(offset, z.frame_rows);
    let start = slice_start(z.frame_rows, slice);
    let hidden = hidden_of(offset, start);
    Cut {
        slice,
        start,
        hidden,
    }
}

pub fn first_of(z: Scaled, i: Start) -> First
    requires sound_scaled { SoundScaled z }
    requires near { Near i }
    ensures { FirstIs z i result }
{
    let cut = cut_of(z, i);
    let image_hidden = image_hidden_of(cut.hidden, z.scale_h);
    let top = slice_start(z.image_rows, cut.slice);
    First {
        slice: cut.slice,
        image_hidden: image_hidden as i64,
        count: count_of(cut.start, z.frame_rows, cut.hidden),
        t: measures::row_part(image_hidden),
        slice_rows: rows_left(z.image_rows, image_hidden),
        image_row: image_row(top, i.origin, image_hidden, z.source_rows),
    }
}
