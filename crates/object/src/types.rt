// The object's fields, the scissor, and the verdicts.
ghost use Rattle.std.specs.Prelude.{◌≡◌, ◌%◌, eqb};

use measures::{Quarters, Scale, ThirtySeconds};

// The bytes of an object of a copy background, the longer kind, with a pointer of 4 bytes.
pub const OBJECT_BYTES: usize = 40;

// A decoded background; fields outside its kind are 0.
// What the checks leave of it stands in clauses: `PassedCopy` and `PassedScaled` speak of the scissor too, and `Usable` is a part of the second. A type for a checked background would hold the scissor, and be taken apart at every call. A field may have any value before the checks.
#[derive(Clone, Copy)]
pub struct ObjBg {
    pub image_x: ThirtySeconds,
    pub image_w: Quarters,
    pub frame_x: Quarters,
    pub frame_w: Quarters,
    pub image_y: ThirtySeconds,
    pub image_h: Quarters,
    pub frame_y: Quarters,
    pub frame_h: Quarters,
    pub image_ptr: u64,
    pub image_load: u16,
    pub image_fmt: u8,
    pub image_siz: u8,
    pub image_pal: u16,
    pub image_flip: u16,
    pub tmem_w: u16,
    pub tmem_h: u16,
    pub tmem_load_sh: u16,
    pub tmem_load_th: u16,
    pub tmem_size_w: u16,
    pub tmem_size: u16,
    pub scale_w: Scale,
    pub scale_h: Scale,
    pub image_y_orig: ThirtySeconds,
}

impl ObjBg {
    // The image is shown from right to left: the Rust tests the lowest bit alone, and a scaled background's other bits may be set.
    pub fn flipped(self) -> bool
        ensures { result ≡ eqb (self.image_flip % 2) 1 }
    {
        self.image_flip % 2 == 1
    }
}

// The scissor's edges, in whole pixels.
#[derive(Clone, Copy)]
pub struct Scissor {
    pub ulx: i32,
    pub uly: i32,
    pub lrx: i32,
    pub lry: i32,
}

// How a plan ended, by the numbers of SPECIFICATION 4.1.
#[derive(Clone, Copy)]
pub enum Verdict {
    Finished = 0,
    Opcode = 1,
    Short = 2,
    Scissor = 3,
    Object = 4,
    Copy = 5,
    Slices = 6,
    TooBig = 7,
    Piece = 8,
    Address = 9,
    Full = 10,
}

// What the checks of a request give, where no verdict applies: a background of one kind.
#[derive(Clone, Copy)]
pub enum Background {
    Copy(ObjBg),
    Scaled(ObjBg),
}
