// The object's fields out of its bytes, for pointers of up to 8 bytes: what stands after the pointer moves with its width, which is a number of the field table and no const parameter, so that one decoder serves every width.
ghost use Rattle.std.specs.Prelude.{◌≡◌, cond, ◌+◌, ◌≤◌, ◌<◌, max, pos, length};
ghost use Rattle.std.specs.Int.{w32};
ghost use Rattle.std.proofs.Common.{to_z};
ghost use Rattle.measures.specs.Measure.{in_thirty_seconds, in_scale};
ghost use Rattle.object.specs.Layout.{read, size_of, decode, decoded_of};

use crate::reader::field_from;
use crate::types::ObjBg;
use measures::{Scale, ThirtySeconds};

// A number of one, two or four bytes. One function for the three widths would need a trait from the width to its type.

pub fn byte(s: &[u8], at: usize) -> u8
    requires { at + 1 ≤ length s.now }
    ensures { result ≡ read s.now at 1 }
{
    field_from(s, at, 1) as u8
}

pub fn half(s: &[u8], at: usize) -> u16
    requires { at + 2 ≤ length s.now }
    ensures { result ≡ read s.now at 2 }
{
    field_from(s, at, 2) as u16
}

pub fn word(s: &[u8], at: usize) -> u32
    requires { at + 4 ≤ length s.now }
    ensures { result ≡ read s.now at 4 }
{
    field_from(s, at, 4) as u32
}

// The fields of one kind are 0 in the other.

fn copy_half(copy: bool, s: &[u8], at: usize) -> u16
    requires { cond copy (at + 2) 0 ≤ length s.now }
    ensures { result ≡ cond copy (read s.now at 2) 0 }
{
    if copy { half(s, at) } else { 0 }
}

// A stored scale of 0 is 1.
fn scale(copy: bool, s: &[u8], at: usize) -> Scale
    requires { cond copy 0 (at + 2) ≤ length s.now }
    ensures { result ≡ in_scale (cond copy 0 (max 1 (read s.now at 2))) }
{
    if copy {
        Scale(0)
    } else {
        half(s, at).max(1).into()
    }
}

fn origin(copy: bool, s: &[u8], at: usize) -> ThirtySeconds
    requires { cond copy 0 (at + 4) ≤ length s.now }
    ensures { result ≡ in_thirty_seconds (cond copy (pos 0) (to_z w32 (read s.now at 4))) }
{
    if copy {
        ThirtySeconds(0)
    } else {
        word(s, at).cast_signed().into()
    }
}

// What depends on the kind comes first: the other reads then stand in one block, where the compiler makes one load of two bytes.
#[tactic(auto, unfolding(crate::specs::Layout::decode, crate::specs::Layout::value_of, crate::specs::Layout::layout))]
fn fields(s: &[u8], pointer: usize, copy: bool) -> ObjBg
    requires pointer_bound { pointer ≤ 8 }
    requires copy_in_bounds { size_of pointer copy ≤ length s.now }
    ensures { result ≡ decode pointer copy s.now }
{
    ObjBg {
        tmem_w: copy_half(copy, s, 24 + pointer),
        tmem_h: copy_half(copy, s, 26 + pointer),
        tmem_load_sh: copy_half(copy, s, 28 + pointer),
        tmem_load_th: copy_half(copy, s, 30 + pointer),
        tmem_size_w: copy_half(copy, s, 32 + pointer),
        tmem_size: copy_half(copy, s, 34 + pointer),
        scale_w: scale(copy, s, 24 + pointer),
        scale_h: scale(copy, s, 26 + pointer),
        image_y_orig: origin(copy, s, 28 + pointer),
        image_x: half(s, 0).into(),
        image_w: half(s, 2).into(),
        frame_x: half(s, 4).cast_signed().into(),
        frame_w: half(s, 6).into(),
        image_y: half(s, 8).into(),
        image_h: half(s, 10).into(),
        frame_y: half(s, 12).cast_signed().into(),
        frame_h: half(s, 14).into(),
        image_ptr: field_from(s, 16, pointer),
        image_load: half(s, 16 + pointer),
        image_fmt: byte(s, 18 + pointer),
        image_siz: byte(s, 19 + pointer),
        image_pal: half(s, 20 + pointer),
        image_flip: half(s, 22 + pointer),
    }
}

fn size(pointer: usize, copy: bool) -> usize
    requires { pointer ≤ 8 }
    ensures { result ≡ size_of pointer copy }
{
    if copy { 36 + pointer } else { 32 + pointer }
}

// None where the bytes are fewer than the kind's.
#[tactic(auto, unfolding(crate::specs::Layout::decoded_of))]
pub fn decode_obj_bg(object: &[u8], pointer: usize, copy: bool) -> Option<ObjBg>
    requires { pointer ≤ 8 }
    ensures { result ≡ decoded_of pointer copy object.now }
{
    (size(pointer, copy) <= object.len()).then(|| fields(object, pointer, copy))
}
