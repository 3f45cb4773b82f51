// Where a scaled plan stands, and what one step of it answers.
use object::Verdict;
use plan::{Entry, Scaled, Source, Walk};

// One part of a pass's load: `load_1cyc_tile`'s numbers.
#[derive(Clone, Copy)]
pub struct Part {
    pub pointer: u64,
    pub rows: i64,
    pub destination: i64,
    pub width: i64,
}

// The two parts of the image's last row: 1 where it is an odd one, where in texture memory the first goes, and its width.
// `odd` is a number and no bool: it is added to a count of rows.
#[derive(Clone, Copy)]
pub struct Split {
    pub odd: u64,
    pub from: i64,
    pub width: i64,
}

// Which part of a load that wraps is given: none yet, the rows from the image's top, the two parts of its last row, and the rows before that.
#[derive(Clone, Copy)]
pub enum Piece {
    Start,
    Top,
    SplitB,
    SplitA,
    Rest,
}

// What comes after a part: the whole load, where no row wraps; another part; the tile alone; or the move.
#[derive(Clone, Copy)]
pub enum Choice {
    Whole,
    Top,
    SplitB,
    SplitA,
    Rest,
    Last,
    Move,
}

// What is given before the next pass: tile 0's size, once, or a pass's rectangle.
#[derive(Clone, Copy)]
pub enum Due {
    Size,
    Rect,
}

// The entries after which a part is chosen: a part's load, the tile alone, or what is given before a pass.
#[derive(Clone, Copy)]
pub enum Turn {
    Load,
    Last,
    Pass(Due),
}

// Which entry comes next. One byte: what a stage would hold besides stands in the place, so that the compiler keeps the stage in a register.
#[derive(Clone, Copy)]
pub enum Stage {
    First,
    Second,
    Whole,
    WholeLoad,
    Tile,
    Image,
    Load,
    Last,
    Size,
    Rect,
}

// A pass under way: the walk before it, its rows and lines, the part that is given and which one it is, the pointer of the last row's first part, and where the next pass starts.
// What holds of a place goes with the stage: `SoundPass` in a pass, and less before the first (`SoundAt`). So it stands in clauses and is no invariant of the type; for the planner, which has both, it is one.
// A type of a stage and a place with this invariant was tried: it is as fast, but whoever makes one proves the range for the type and again for what is reached, and the planner, which stores the two apart, makes one and takes it apart at each step.
#[derive(Clone, Copy)]
pub struct Place {
    pub scaled: Scaled,
    pub walk: Walk,
    pub rows: i64,
    pub lines: u64,
    pub part: Part,
    pub spare: u64,
    pub next: Source,
    pub piece: Piece,
}

// Where the plan stands, or its end.
pub type Reached = Result<(Stage, Place), Verdict>;

// A pass and the part that is given of its load, or the plan's end.
pub type Begun = Result<(Piece, Place), Verdict>;

// A load that is refused, with the size that it has set.
#[derive(Clone, Copy)]
pub struct Refused(pub Entry);

// What one step answers: an entry and where the plan stands then, or a refused load.
pub type ScaledNext = Result<(Entry, Reached), Refused>;
