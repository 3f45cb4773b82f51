// The numbers that every strip of a scaled plan has.
ghost use Rattle.std.specs.Prelude.{◌≡◌, ◌+◌, ◌*◌, ◌/◌, ◌%◌, ◌≤◌, ◌<◌, ◌^◌, pos};
ghost use Rattle.measures.specs.Measure.{quarters, thirty_seconds, of_rows, sampled_by, in_thirty_seconds};
ghost use Rattle.measures.specs.Range.{Below};
ghost use Rattle.plan.specs.Scaled.{slices_bad};
ghost use Rattle.scaled.specs.Range.{Usable, Filled, StartIn, ScaledIs};
ghost use Rattle.scaled.specs.Strip.{shift_of, max_slice, line_of, split_of, s_of, RowsAre, ColumnsAre};

use measures::{Quarters, Scale, ThirtySeconds};
use object::ObjBg;
use plan::{Clip, Scaled, Start};

// What a strip has of rows: the words of one, its own, those of the frame it fills, the image's.
#[derive(Clone, Copy)]
pub(crate) struct Rows {
    pub(crate) line: u64,
    pub(crate) image_rows: u64,
    pub(crate) frame_rows: u64,
    pub(crate) source_rows: u64,
}

// What a row of a strip has: whether it runs over, the image's bytes, the first byte's offset, the first column.
#[derive(Clone, Copy)]
pub(crate) struct Columns {
    pub(crate) split: u64,
    pub(crate) stride: u64,
    pub(crate) x_offset: u64,
    pub(crate) s: ThirtySeconds,
}

// One where the render mode blends two rows, so that a strip loads one row more: a number and no bool, as it is added to rows and to columns here, in `Scaled` and in every definition, so its bound stands in clauses.
fn bilerp_of(mode: u32) -> u64
    ensures value { result ≡ mode / 8 % 2 }
    ensures upper_bound { result ≤ 1 }
{
    u64::from((mode >> 3) & 1)
}

// The thirty-seconds of a texel in one 64-bit word. siz stays the object's byte, and is shifted by: an enum would be made and taken apart in every function, and the definitions count in 2^siz.
fn shift_of(siz: u8) -> u64
    requires { siz ≤ 3 }
    ensures value { result ≡ shift_of siz }
    ensures lower_bound { (64 ≤ result) × (result ≤ 512) }
{
    0x200 >> siz
}

// The mask keeps what a position has over whole words.
fn column_of(x: ThirtySeconds, siz: u8) -> ThirtySeconds
    requires { siz ≤ 3 }
    ensures value { result ≡ in_thirty_seconds (pos (thirty_seconds x % shift_of siz)) }
    ensures result_bound { thirty_seconds result < 512 }
{
    let mask = shift_of(siz) - 1;
    measures::of_thirty_seconds(measures::thirty_seconds(x) & mask)
}

fn max_slice_of(siz: u8, slice: ThirtySeconds, source_w: ThirtySeconds) -> u64
    requires { thirty_seconds source_w ≤ 2 ^ 20 }
    ensures value { result ≡ max_slice siz (thirty_seconds slice) (thirty_seconds source_w) }
    ensures upper_bound { result ≤ 2 ^ 20 }
{
    if siz == 3 {
        0x2800
    } else {
        measures::thirty_seconds(slice).min(measures::thirty_seconds(source_w))
    }
}

// What a frame width takes of the image, with the column more that a blend reads.
fn slice_width(width: Quarters, scale: Scale, bilerp: u64) -> ThirtySeconds
    requires { (Below 16 width.0) × ((scale.0 ≤ 65535) × (bilerp ≤ 1)) }
    ensures value { result ≡ in_thirty_seconds (pos (sampled_by (quarters width) scale.0 + of_rows bilerp)) }
    ensures result_bound { thirty_seconds result ≤ 2 ^ 26 }
{
    measures::sampled_by(width, scale) + measures::of_rows(bilerp as i64)
}

// The words of a tile's row: those of the widest strip, and one more.
fn line_of(bg: ObjBg, bilerp: u64) -> u64
    requires usable { Usable bg }
    requires bilerp_bound { bilerp ≤ 1 }
    ensures value { result ≡ line_of bg bilerp }
    ensures lower_bound { 1 ≤ result }
{
    let source_w = measures::in_image(bg.image_w);
    let slice = slice_width(bg.frame_w, bg.scale_w, bilerp);
    let shift = shift_of(bg.image_siz);
    max_slice_of(bg.image_siz, slice, source_w).div_ceil(shift) + 1
}

// A row's bytes in whole words, up to a position.
fn bytes_of(x: ThirtySeconds, siz: u8) -> u64
    requires { (thirty_seconds x ≤ 2 ^ 20) × (siz ≤ 3) }
    ensures { result ≡ thirty_seconds x / shift_of siz * 8 }
{
    measures::thirty_seconds(x) / shift_of(siz) * 8
}

// One where a strip's rows run over the image's right side.
fn split_of(source_w: ThirtySeconds, end: ThirtySeconds) -> u64
    ensures { result ≡ split_of (thirty_seconds source_w) (thirty_seconds end) }
{
    u64::from(measures::thirty_seconds(source_w) <= measures::thirty_seconds(end))
}

// The texture column of the frame's left side, which in a flipped frame is the image's right. Added and negated as numbers: this is the one negative measure, so the measures have no `Neg`.
fn s_of(flip: bool, column: ThirtySeconds, image_width: ThirtySeconds) -> ThirtySeconds
    requires { (Below 9 column.0) × Below 26 image_width.0 }
    ensures { result ≡ in_thirty_seconds (s_of flip (thirty_seconds column) (thirty_seconds image_width)) }
{
    if flip {
        ThirtySeconds(-(column.0 + image_width.0))
    } else {
        column
    }
}

fn rows_of(bg: ObjBg, bilerp: u64) -> Rows
    requires usable { Usable bg }
    requires bilerp_bound { bilerp ≤ 1 }
    ensures { RowsAre bg bilerp result }
{
    let line = line_of(bg, bilerp);
    let capacity = capacity::scaled_capacity(bg.image_fmt, bg.image_siz);
    let image_rows = (capacity / line).saturating_sub(bilerp);
    Rows {
        line,
        image_rows,
        frame_rows: measures::lines_at(image_rows, bg.scale_h),
        source_rows: measures::whole_texels(measures::in_image(bg.image_h)),
    }
}

fn columns_of(bg: ObjBg, bilerp: u64, c: Clip, i: Start) -> Columns
    requires usable { Usable bg }
    requires filled { Filled c }
    requires bilerp_bound { bilerp ≤ 1 }
    requires start_in { StartIn bg i }
    ensures { ColumnsAre bg bilerp c i result }
{
    let source_w = measures::in_image(bg.image_w);
    let slice = slice_width(c.width, bg.scale_w, bilerp);
    let column = column_of(i.image_x, bg.image_siz);
    let image_width = measures::sampled_by(c.width, bg.scale_w);
    Columns {
        split: split_of(source_w, i.image_x + slice),
        stride: bytes_of(source_w, bg.image_siz),
        x_offset: bytes_of(i.image_x, bg.image_siz),
        s: s_of(c.flip, column, image_width),
    }
}

pub fn scaled_of(bg: ObjBg, mode: u32, address: u64, c: Clip, i: Start) -> Scaled
    requires usable { Usable bg }
    requires filled { Filled c }
    requires start_in { StartIn bg i }
    ensures { ScaledIs bg mode address c i result }
{
    let bilerp = bilerp_of(mode);
    let rows = rows_of(bg, bilerp);
    let columns = columns_of(bg, bilerp, c, i);
    Scaled {
        fmt: bg.image_fmt.into(),
        siz: bg.image_siz.into(),
        palette: signed::low8(bg.image_pal).into(),
        address,
        x: c.x,
        x_end: c.x + c.width,
        scale_w: bg.scale_w,
        scale_h: bg.scale_h,
        bilerp,
        split: columns.split,
        source_rows: rows.source_rows,
        line: rows.line,
        image_rows: rows.image_rows,
        frame_rows: rows.frame_rows,
        stride: columns.stride,
        x_offset: columns.x_offset,
        s: columns.s,
    }
}

// No strip fits, or the image has no whole row or no whole word in a row.
pub fn slices_bad(z: Scaled) -> bool
    ensures { result ≡ slices_bad z }
{
    z.source_rows == 0 || (z.image_rows == 0 || z.stride == 0)
}
