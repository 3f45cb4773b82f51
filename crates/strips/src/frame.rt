// The frame of a copy plan: clipped by the scissor, in cells of 4 quarters, and where it starts in the image.
ghost use Rattle.std.specs.Prelude.{◌≡◌, ◌/◌, ◌^◌, ◌≤◌, max, pos, ◌+ℤ◌, ◌-ℤ◌};
ghost use Rattle.signed.specs.Diff.{up};
ghost use Rattle.signed.specs.Cast.{min_z};
ghost use Rattle.measures.specs.Measure.{quarters, texels, edge, in_quarters};
ghost use Rattle.measures.specs.Range.{Below, Within};
ghost use Rattle.checks.specs.Known.{PassedCopy};
ghost use Rattle.plan.specs.Copy.{copy_empty};
ghost use Rattle.strips.specs.Frame.{AtMost, AxisIs, CopyIs};

use measures::Quarters;
use object::{ObjBg, Scissor};
use plan::Copy;

// One axis of the frame clipped by the scissor: the near edge, the cells inside, and the cells cut off before them.
#[derive(Clone, Copy)]
pub struct Axis {
    pub edge: Quarters,
    pub cells: u64,
    pub skip: u64,
}

// The frame's near edge: its own, or the scissor's.
fn near(frame: Quarters, low: Quarters) -> Quarters
    requires { (Within 15 frame.0) × Below 12 low.0 }
    ensures { (result ≡ in_quarters (pos (max (quarters frame) (quarters low)))) × Below 15 result.0 }
{
    frame.max(low)
}

// The cells from the near edge to the far one, which is the frame's or the scissor's.
fn cells_in(frame: Quarters, size: Quarters, high: Quarters, near: Quarters) -> u64
    requires within { (Within 15 frame.0) × Below 16 size.0 }
    requires below { (Below 12 high.0) × Below 15 near.0 }
    ensures { result ≡ texels (up (min_z (frame.0 +ℤ size.0) high.0 -ℤ near.0)) }
{
    measures::texels((frame + size).min(high) - near)
}

// The cells of the frame before the near edge.
fn cells_before(frame: Quarters, near: Quarters) -> u64
    requires { (Within 15 frame.0) × Below 15 near.0 }
    ensures { AtMost (texels (up (near.0 -ℤ frame.0))) 16383 result }
{
    measures::texels(near - frame)
}

fn axis_of(frame: Quarters, size: Quarters, low: i32, high: i32) -> Axis
    requires within { (Within 15 frame.0) × (Below 16 size.0) }
    requires below { (Below 10 low) × (Below 10 high) }
    ensures { AxisIs frame.0 (quarters size) (edge low) (edge high) result }
{
    let edge = near(frame, measures::edge(low));
    let cells = cells_in(frame, size, measures::edge(high), edge);
    let skip = cells_before(frame, edge);
    Axis { edge, cells, skip }
}

// The texels in a word of texture memory: its 64 bits over the bits of a texel, by the sizes of the GBI headers. Four cases and no shift, as the customer asked for them (docs/changes/paper-03.md).
pub fn texels_per_word(siz: u8) -> u64
    requires { siz ≤ 3 }
    ensures { result ≡ 16 / 2 ^ siz }
{
    match siz {
        0 => 64 / 4, // G_IM_SIZ_4b: 16 texels
        1 => 64 / 8, // G_IM_SIZ_8b: 8 texels
        2 => 64 / 16, // G_IM_SIZ_16b: 4 texels
        _ => 64 / 32, // G_IM_SIZ_32b: 2 texels
    }
}

pub fn copy_of(bg: ObjBg, scissor: Scissor, address: u64) -> Copy
    requires { PassedCopy bg scissor }
    ensures { CopyIs bg scissor address result }
{
    let across = axis_of(bg.frame_x, bg.frame_w, scissor.ulx, scissor.lrx);
    let down = axis_of(bg.frame_y, bg.frame_h, scissor.uly, scissor.lry);
    Copy {
        fmt: bg.image_fmt.into(),
        siz: bg.image_siz.into(),
        palette: signed::low8(bg.image_pal).into(),
        flip: bg.flipped(),
        address,
        rows: measures::strip_lines(bg.tmem_h),
        image_width: measures::texels(bg.image_w),
        image_height: measures::texels(bg.image_h),
        frame_cells: measures::texels(bg.frame_w),
        left: across.edge,
        top: down.edge,
        width: across.cells,
        height: down.cells,
        source_x: measures::whole_texels(bg.image_x),
        source_y: measures::whole_texels(bg.image_y) + down.skip,
        x_skip: across.skip,
        capacity: capacity::copy_capacity(bg.image_fmt, bg.image_siz),
        texels_per_word: texels_per_word(bg.image_siz),
    }
}

// No cell of the frame lies inside the scissor.
pub fn copy_empty(c: Copy) -> bool
    ensures { result ≡ copy_empty c }
{
    c.width == 0 || c.height == 0
}
