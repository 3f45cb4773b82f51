// Where a copy walk stands, and why it ends.
use plan::{Copy, Entry, Strip};

// What is given before a strip is found: the texture image, once, or the rectangle of the strip before it.
#[derive(Clone, Copy)]
pub enum Due {
    Image,
    Rect,
}

// Which entry is due: the one before a strip is found, one of the strip's first four, or none.
#[derive(Clone, Copy)]
pub enum Stage {
    Strip(Due),
    Tile7,
    Tile0,
    Size,
    Load,
    Done,
}

// The strip that a walk stands at, computed once for its five entries; at the start one of no cells, before the first row.
// `SoundPlace` stands in clauses and is no invariant of the type: the place before the first row does not meet it, and `SoundAt` says by the stage which place does. A type of both was tried for scaled plans (crates/loads/src/types.rt).
#[derive(Clone, Copy)]
pub struct Place {
    pub copy: Copy,
    pub x: u64,
    pub y: u64,
    pub sy: u64,
    pub strip_height: u64,
    pub strip: Strip,
}

// Why a step gives no entry. A refused load has set a size.
#[derive(Clone, Copy)]
pub enum CopyEnd {
    TooBig,
    Overflow(Entry),
    Finished,
}

// What one step answers: an entry with where the walk stands after it, or why there is none.
pub type CopyNext = Result<(Entry, Stage, Place), CopyEnd>;
