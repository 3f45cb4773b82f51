// The frame clipped by the scissor.
ghost use Rattle.std.specs.Prelude.{◌≡◌, ◌+◌, ◌≤◌, ◌^◌, pos, neg_ℤ, ◌≤ℤ◌};
ghost use Rattle.measures.specs.Measure.{quarters, edge, in_quarters};
ghost use Rattle.measures.specs.Range.{Below, Within};
ghost use Rattle.checks.specs.Known.{PassedScaled};
ghost use Rattle.plan.specs.Scaled.{scaled_empty};
ghost use Rattle.scaled.specs.Range.{Position, Extent, ClipIs};
ghost use Rattle.scaled.specs.Clip.{greatest, removed, kept, lower, moved, near_cut, far_cut, AxisIs, Across, Down};

use measures::{Quarters, Scale};
use object::{ObjBg, Scissor};
use plan::Clip;

// What the scissor cuts off a frame along one axis, before and after, where the rest starts, and the rest.
#[derive(Clone, Copy)]
pub(crate) struct Axis {
    pub(crate) near: Quarters,
    pub(crate) far: Quarters,
    pub(crate) start: Quarters,
    pub(crate) rest: Quarters,
}

// The frame's greatest extent: what the image gives at the scale, less one, in whole pixels.
fn max_of(image: Quarters, scale: Scale) -> Quarters
    requires { (Below 16 image.0) × (1 ≤ scale.0) }
    ensures value { result ≡ in_quarters (greatest (quarters image) scale.0) }
    ensures pos_bound { (neg_ℤ (pos 4) ≤ℤ result.0) × (result.0 ≤ℤ pos (2 ^ 26)) }
{
    let shown = measures::shown_at(image, scale);
    let less = shown.0 - 1;
    Quarters(masks::clear2(less))
}

// What a frame wider than its image loses.
fn removed_of(frame: Quarters, image: Quarters, scale: Scale) -> Quarters
    requires { (Below 16 frame.0) × ((Below 16 image.0) × (1 ≤ scale.0)) }
    ensures value { result ≡ in_quarters (pos (removed (quarters frame) (quarters image) scale.0)) }
    ensures result_bound { quarters result ≤ quarters frame + 4 }
{
    measures::extent(frame - max_of(image, scale))
}

fn height_of(frame: Quarters, image: Quarters, scale: Scale) -> Quarters
    requires { (Below 16 frame.0) × ((Below 16 image.0) × (1 ≤ scale.0)) }
    ensures value { result ≡ in_quarters (lower (quarters frame) (quarters image) scale.0) }
    ensures extent { Extent result.0 }
{
    frame.min(max_of(image, scale))
}

// The Rust's `left` and `top`.
fn near_cut(x: Quarters, ul: i32) -> Quarters
    requires { (Below 10 ul) × Position x.0 }
    ensures value { result ≡ in_quarters (pos (near_cut x.0 (edge ul))) }
    ensures result_bound { quarters result ≤ 36863 }
{
    measures::extent(measures::edge(ul) - x)
}

// The Rust's `right` and `bottom`.
fn far_cut(x: Quarters, extent: Quarters, lr: i32) -> Quarters
    requires below { Below 10 lr }
    requires position { Position x.0 }
    requires extent_in { Extent extent.0 }
    ensures value { result ≡ in_quarters (pos (far_cut x.0 extent.0 (edge lr))) }
    ensures result_bound { quarters result ≤ 2 ^ 19 }
{
    measures::extent(extent - measures::edge(lr) + x)
}

// An extent at `x` between two edges of the scissor.
fn cut_axis(x: Quarters, extent: Quarters, ul: i32, lr: i32) -> Axis
    requires below { (Below 10 ul) × Below 10 lr }
    requires position { Position x.0 }
    requires extent_in { Extent extent.0 }
    ensures { AxisIs x.0 extent.0 (edge ul) (edge lr) result }
{
    let near = near_cut(x, ul);
    let far = far_cut(x, extent, lr);
    Axis {
        near,
        far,
        start: measures::extent(x + near),
        rest: measures::extent(extent - (near + far)),
    }
}

// What a flipped frame loses in width is lost on the left.
fn x_of(frame_x: Quarters, flip: bool, removed_w: Quarters) -> Quarters
    requires { (Within 15 frame_x.0) × Below 17 removed_w.0 }
    ensures value { result ≡ in_quarters (moved frame_x.0 flip (quarters removed_w)) }
    ensures position { Position result.0 }
{
    if flip { frame_x + removed_w } else { frame_x }
}

fn width_of(frame_w: Quarters, removed_w: Quarters) -> Quarters
    requires below { (Below 16 frame_w.0) × (Below 17 removed_w.0) }
    requires removed_w_bound { quarters removed_w ≤ quarters frame_w + 4 }
    ensures value { result ≡ in_quarters (kept (quarters frame_w) (quarters removed_w)) }
    ensures extent { Extent result.0 }
{
    frame_w - removed_w
}

fn across(bg: ObjBg, flip: bool, scissor: Scissor) -> Axis
    requires { PassedScaled bg scissor }
    ensures { Across bg flip scissor result }
{
    let removed_w = removed_of(bg.frame_w, bg.image_w, bg.scale_w);
    let x = x_of(bg.frame_x, flip, removed_w);
    let width = width_of(bg.frame_w, removed_w);
    cut_axis(x, width, scissor.ulx, scissor.lrx)
}

fn down(bg: ObjBg, scissor: Scissor) -> Axis
    requires { PassedScaled bg scissor }
    ensures { Down bg scissor result }
{
    let height = height_of(bg.frame_h, bg.image_h, bg.scale_h);
    cut_axis(bg.frame_y, height, scissor.uly, scissor.lry)
}

pub fn clip_of(bg: ObjBg, scissor: Scissor) -> Clip
    requires { PassedScaled bg scissor }
    ensures { ClipIs bg scissor result }
{
    let flip = bg.flipped();
    let horizontal = across(bg, flip, scissor);
    let vertical = down(bg, scissor);
    Clip {
        flip,
        left: horizontal.near,
        top: vertical.near,
        right: horizontal.far,
        x: horizontal.start,
        y: vertical.start,
        width: horizontal.rest,
        height: vertical.rest,
    }
}

pub fn clip_empty(c: Clip) -> bool
    ensures { result ≡ scaled_empty c }
{
    measures::quarters(c.width) == 0 || measures::quarters(c.height) == 0
}
