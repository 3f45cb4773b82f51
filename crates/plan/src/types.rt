// The entries and ends of plans, and the numbers of both planners, with the names of the Rust.
use measures::{Quarters, Scale, ThirtySeconds};
use object::Verdict;

// One entry of a plan. Its numbers have 64 bits, as a host gets them: the compiler would pack and unpack narrower ones at every step.
#[derive(Clone, Copy)]
pub enum Entry {
    Image {
        fmt: u64,
        siz: u64,
        width: u64,
        address: u64,
    },
    Tile {
        index: u64,
        fmt: u64,
        siz: u64,
        line: u64,
        tmem: u64,
        palette: u64,
        cms: u64,
        cmt: u64,
        masks: u64,
        maskt: u64,
    },
    Size {
        index: u64,
        uls: u64,
        ult: u64,
        lrs: u64,
        lrt: u64,
    },
    Load {
        index: u64,
        uls: u64,
        ult: u64,
        lrs: u64,
        lrt: u64,
        words: u64,
        rows: u64,
        stride: u64,
        start: u64,
        length: u64,
    },
    Rect {
        tile: u64,
        ulx: u64,
        uly: u64,
        lrx: u64,
        lry: u64,
        uls: i64,
        ult: i64,
        dsdx: i64,
        dtdy: i64,
        row: u64,
    },
}

// How a plan ended: its verdict, and what was given before it.
#[derive(Clone, Copy)]
pub struct End {
    pub verdict: Verdict,
    pub entries: u64,
    pub rectangles: u64,
    pub words: u64,
}

// What one step of a planner answers: an entry, or the end.
pub type Answer = Result<Entry, End>;

// The facts on these numbers (`SoundCopy`, `SoundScaled`, `Filled`) stand in clauses and not in the types. An empty frame and strips that verdict 6 refuses do not meet them, and are made before they are tested;
// and the definitions make such records of any request, so that a type with these facts would need a second record for each.

// What no strip of a copy plan changes; widths, heights, columns and rows count cells of 4 quarters.
#[derive(Clone, Copy)]
pub struct Copy {
    pub fmt: u64,
    pub siz: u64,
    pub palette: u64,
    pub flip: bool,
    pub address: u64,
    pub rows: u64,
    pub image_width: u64,
    pub image_height: u64,
    pub frame_cells: u64,
    pub left: Quarters,
    pub top: Quarters,
    pub width: u64,
    pub height: u64,
    pub source_x: u64,
    pub source_y: u64,
    pub x_skip: u64,
    pub capacity: u64,
    pub texels_per_word: u64,
}

// The columns of a copy strip.
#[derive(Clone, Copy)]
pub struct Strip {
    pub strip_width: u64,
    pub aligned_left: u64,
    pub offset: u64,
    pub load_width: u64,
    pub line: u64,
}

// A scaled frame clipped by the scissor.
#[derive(Clone, Copy)]
pub struct Clip {
    pub flip: bool,
    pub left: Quarters,
    pub top: Quarters,
    pub right: Quarters,
    pub x: Quarters,
    pub y: Quarters,
    pub width: Quarters,
    pub height: Quarters,
}

// Where a scaled frame starts in the image, with the rows that its column carried and the images that its row wrapped.
#[derive(Clone, Copy)]
pub struct Start {
    pub image_x: ThirtySeconds,
    pub image_y: ThirtySeconds,
    pub origin: ThirtySeconds,
    pub carry: u64,
    pub wrap: u64,
}

// What no pass of a scaled plan changes; frame_rows counts lines in 1,024ths. `split` and `bilerp` are numbers and no bools: they are added to counts of rows, or taken off them.
#[derive(Clone, Copy)]
pub struct Scaled {
    pub source_rows: u64,
    pub line: u64,
    pub image_rows: u64,
    pub frame_rows: u64,
    pub stride: u64,
    pub x_offset: u64,
    pub split: u64,
    pub bilerp: u64,
    pub address: u64,
    pub fmt: u64,
    pub siz: u64,
    pub palette: u64,
    pub x: Quarters,
    pub x_end: Quarters,
    pub s: ThirtySeconds,
    pub scale_w: Scale,
    pub scale_h: Scale,
}

// The first strip of a scaled plan; image_hidden counts rows and count lines, both in 1,024ths.
#[derive(Clone, Copy)]
pub struct First {
    pub slice: i64,
    pub image_hidden: i64,
    pub count: i64,
    pub t: ThirtySeconds,
    pub slice_rows: i64,
    pub image_row: u64,
}

// Where the next rows of a scaled plan come from, and the rows left in the image.
#[derive(Clone, Copy)]
pub struct Source {
    pub pointer: u64,
    pub remain: i64,
}

// What a pass of a scaled plan changes.
#[derive(Clone, Copy)]
pub struct Walk {
    pub frame_y: u64,
    pub frame_remain: i64,
    pub count: i64,
    pub slice_rows: i64,
    pub t: ThirtySeconds,
    pub source: Source,
}
