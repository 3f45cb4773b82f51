// The checks of a request, in the verdicts' order.
ghost use Rattle.std.specs.Prelude.{◌≡◌, ◌<◌, not, ◌||◌, ltb, eqb};
ghost use Rattle.checks.specs.Check.{verdict_number, any, kind_of, edge_bad, scissor_bad, object_faults, copy_faults, object_of};
ghost use Rattle.checks.specs.Known.{CheckedIs};

use measures::{quarters, strip_lines, texels};
use object::{Background, ObjBg, Scissor, Verdict, decode_obj_bg};

// Bytes of a pointer in the object.
const POINTER: usize = 4;

// A function, and no `From` beside the type: the definition of the numbers is this crate's.
pub fn number(v: Verdict) -> u64
    ensures { result ≡ verdict_number v }
{
    v as u64
}

// A scaled background's opcode, and a copy's. The opcode stays the caller's byte: a request may hold any, and no function after `kind` asks for it.
const SCALED: u8 = 9;

pub const COPY: u8 = 10;

// Whether a copy is asked for: the one place that tells the opcodes apart.
fn kind(opcode: u8) -> Result<bool, Verdict>
    ensures { result ≡ kind_of opcode }
{
    match opcode {
        SCALED => Ok(false),
        COPY => Ok(true),
        _ => Err(Verdict::Opcode),
    }
}

fn edge_bad(edge: i32) -> bool
    ensures { result ≡ edge_bad edge }
{
    !(0..=1023).contains(&edge)
}

// Here and below tests are joined by `|`, without a short circuit: each may be made whatever the others say, so the compiler is free to order and to join them, and makes one comparison of the four edges.
fn scissor_bad(s: Scissor) -> bool
    ensures { result ≡ scissor_bad s }
{
    edge_bad(s.ulx) | edge_bad(s.uly) | edge_bad(s.lrx) | edge_bad(s.lry)
}

fn load_bad(load: u16) -> bool
    ensures { result ≡ not (eqb load 0x0033 || eqb load 0xfff4) }
{
    !matches!(load, 0x0033 | 0xfff4)
}

fn object_bad(bg: ObjBg) -> bool
    ensures { result ≡ any (object_faults bg) }
{
    (quarters(bg.image_w) == 0)
        | (quarters(bg.image_h) == 0)
        | (quarters(bg.frame_w) == 0)
        | (quarters(bg.frame_h) == 0)
        | (3 < bg.image_siz)
        | (4 < bg.image_fmt)
        | load_bad(bg.image_load)
}

// Any bit above the lowest, tested as the Rust tests it, as the other conditions are; the law `high` of crates/checks/specs/Ties.antt says that this is `1 < flip`.
fn flip_bad(flip: u16) -> bool
    ensures { result ≡ ltb 1 flip }
{
    flip & !1 != 0
}

fn copy_bad(bg: ObjBg) -> bool
    ensures { result ≡ any (copy_faults bg) }
{
    let product = (u32::from(bg.tmem_size) << 16) | u32::from(bg.tmem_load_sh);
    (bg.image_load != 0xfff4)
        | (strip_lines(bg.tmem_h) == 0)
        | (texels(bg.image_w) == 0)
        | (texels(bg.image_h) == 0)
        | (bg.tmem_size_w == 0)
        | (product != u32::from(bg.tmem_h) * u32::from(bg.tmem_size_w))
        | flip_bad(bg.image_flip)
}

#[tactic(auto, unfolding(crate::specs::Check::object_of))]
fn object_checked(copy: bool, bg: ObjBg) -> Result<Background, Verdict>
    ensures { result ≡ object_of copy bg }
{
    if object_bad(bg) {
        return Err(Verdict::Object);
    }
    if !copy {
        return Ok(Background::Scaled(bg));
    }
    if copy_bad(bg) {
        return Err(Verdict::Copy);
    }
    Ok(Background::Copy(bg))
}

// The background that is asked for, or the first verdict that applies.
pub fn checked(object: &[u8], opcode: u8, scissor: Scissor) -> Result<Background, Verdict>
    ensures { CheckedIs object.now opcode scissor result }
{
    let copy = kind(opcode)?;
    let bg = decode_obj_bg(object, POINTER, copy).ok_or(Verdict::Short)?;
    if scissor_bad(scissor) {
        return Err(Verdict::Scissor);
    }
    object_checked(copy, bg)
}
