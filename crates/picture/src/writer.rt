// A whole copy object of a picture.
ghost use Rattle.std.specs.Prelude.{◌≡◌, ◌+◌, ◌≤◌, length};
ghost use Rattle.std.specs.Int.{w16, to_be_bytes};
ghost use Rattle.std.proofs.Math.Seq.{paste};
ghost use Rattle.checks.specs.Check.{any};
ghost use Rattle.picture.specs.Writer.{copy_bytes, format_faults, size_faults, written_number, wrote, wrote_of};
ghost use Rattle.picture.specs.Parts.{object_of, Fits};

use crate::types::{Picture, Written};
use capacity::copy_capacity;
use object::OBJECT_BYTES;
use strips::line_of;

pub fn number(w: Written) -> u64
    ensures { result ≡ written_number w }
{
    w as u64
}

fn put_half(object: &mut [u8; OBJECT_BYTES], at: usize, n: u16)
    requires { at + 2 ≤ 40 }
    ensures { object.new ≡ paste object.old at (to_be_bytes w16 n) 2 }
{
    object[at..at + 2].copy_from_slice(&n.to_be_bytes());
}

// The fields that are not 0, each at its place in the table of SPECIFICATION 3.1 and 3.2.
fn object_bytes(p: Picture) -> [u8; OBJECT_BYTES]
    requires { Fits p.width p.height p.line p.rows }
    ensures { result ≡ copy_bytes (object_of p) }
{
    let image_w = (p.width * 4) as u16;
    let image_h = (p.height * 4) as u16;
    let tmem_h = p.rows * 4;
    let product = tmem_h * p.line;
    let mut object = [0; OBJECT_BYTES];
    put_half(&mut object, 2, image_w);
    put_half(&mut object, 6, image_w);
    put_half(&mut object, 10, image_h);
    put_half(&mut object, 14, image_h);
    object[16..20].copy_from_slice(&p.pointer.to_be_bytes());
    put_half(&mut object, 20, 0xfff4);
    object[22] = p.fmt;
    object[23] = p.siz;
    put_half(&mut object, 30, tmem_h as u16);
    put_half(&mut object, 32, (product % 65536) as u16);
    put_half(&mut object, 36, p.line as u16);
    put_half(&mut object, 38, (product / 65536) as u16);
    object
}

// Verdict 4's conditions on siz and fmt.
fn format_bad(fmt: u64, siz: u64) -> bool
    ensures { result ≡ any (format_faults fmt siz) }
{
    (3 < siz) | (4 < fmt)
}

fn size_bad(width: u64, height: u64) -> bool
    ensures { result ≡ any (size_faults width height) }
{
    (width == 0) | (16383 < width) | (height == 0) | (16383 < height)
}

// Fills the first 40 bytes of a buffer, or answers why not, and then all of it is as it was. Width and height are in texels.
pub fn write_copy(
    width: u64,
    height: u64,
    fmt: u64,
    siz: u64,
    pointer: u32,
    out: &mut [u8],
) -> Written
    ensures { wrote result out.new ≡ wrote_of width height fmt siz pointer out.old }
{
    let Some(object) = out.first_chunk_mut() else {
        return Written::Short;
    };
    if format_bad(fmt, siz) {
        return Written::Object;
    }
    if size_bad(width, height) {
        return Written::Picture;
    }
    let (fmt, siz) = (fmt as u8, siz as u8);
    let capacity = copy_capacity(fmt, siz);
    let line = line_of(u64::from(siz), width);
    if capacity < line {
        return Written::Picture;
    }
    *object = object_bytes(Picture {
        width,
        height,
        fmt,
        siz,
        pointer,
        line,
        rows: capacity / line,
    });
    Written::Done
}
