// A copy course in words and out of them, and the test of such words that is what a step asks of its place. A word goes by its place in the list of `copy_words`, here as in the definitions: tests of named fields would need that list a second time.
#![tactic(auto)]

ghost use Rattle.std.specs.Prelude.{◌≡◌};
ghost use Rattle.copy.specs.Walk.{SoundPlace};
ghost use Rattle.copy.specs.Kept.{left_copy};
ghost use Rattle.stored_copy.specs.Course.{stage_word, copy_words, stage_from, copy_from, strip_from, place_from, copy_test, place_test};

use copy::{Due, Place, Stage};
use measures::{Quarters, quarters};
use plan::{Copy, Strip};
use stored_fields::{State, room};
use strips::texels_per_word;
use words::Counts;

// A match, as a stage that holds what is due has no number to cast.
fn stage_word(s: Stage) -> u64
    ensures { result ≡ stage_word s }
{
    match s {
        Stage::Strip(Due::Image) => 1,
        Stage::Strip(Due::Rect) => 2,
        Stage::Tile7 => 3,
        Stage::Tile0 => 4,
        Stage::Size => 5,
        Stage::Load => 6,
        Stage::Done => 7,
    }
}

#[tactic(auto, unfolding(crate::specs::Course::copy_words))]
pub fn copy_words(stage: Stage, p: Place, n: Counts) -> State
    ensures { result ≡ copy_words stage p n }
{
    let c = p.copy;
    let s = p.strip;
    [
        stage_word(stage),
        n.entries,
        n.rectangles,
        n.words,
        n.line,
        c.fmt,
        c.siz,
        c.palette,
        u64::from(c.flip),
        c.address,
        c.rows,
        c.image_width,
        c.image_height,
        c.frame_cells,
        quarters(c.left),
        quarters(c.top),
        c.width,
        c.height,
        c.source_x,
        c.source_y,
        c.x_skip,
        c.capacity,
        c.texels_per_word,
        p.x,
        p.y,
        p.sy,
        p.strip_height,
        s.strip_width,
        s.aligned_left,
        s.offset,
        s.load_width,
        s.line,
        0,
        0,
        0,
        0,
        0,
        0,
        0,
    ]
}

// Total: `stored::load` refuses a number that is no stage's, as its words are not those of the stage that it reads as.
pub fn stage_from(k: u64) -> Stage
    ensures { result ≡ stage_from k }
{
    match k {
        2 => Stage::Strip(Due::Rect),
        3 => Stage::Tile7,
        4 => Stage::Tile0,
        5 => Stage::Size,
        6 => Stage::Load,
        _ => Stage::Done,
    }
}

#[tactic(auto, unfolding(crate::specs::Course::copy_from))]
pub fn copy_from(words: &State) -> Copy
    ensures { result ≡ copy_from words.now }
{
    Copy {
        fmt: words[5],
        siz: words[6],
        palette: words[7],
        flip: words[8] == 1,
        address: words[9],
        rows: words[10],
        image_width: words[11],
        image_height: words[12],
        frame_cells: words[13],
        left: Quarters(words[14].cast_signed()),
        top: Quarters(words[15].cast_signed()),
        width: words[16],
        height: words[17],
        source_x: words[18],
        source_y: words[19],
        x_skip: words[20],
        capacity: words[21],
        texels_per_word: words[22],
    }
}

#[tactic(auto, unfolding(crate::specs::Course::strip_from))]
fn strip_from(words: &State) -> Strip
    ensures { result ≡ strip_from words.now }
{
    Strip {
        strip_width: words[27],
        aligned_left: words[28],
        offset: words[29],
        load_width: words[30],
        line: words[31],
    }
}

#[tactic(auto, unfolding(crate::specs::Course::place_from))]
pub fn place_from(words: &State) -> Place
    ensures { result ≡ place_from words.now }
{
    Place {
        copy: copy_from(words),
        x: words[23],
        y: words[24],
        sy: words[25],
        strip_height: words[26],
        strip: strip_from(words),
    }
}

// Here and in `place_sound` the tests are joined by `&`, without a short circuit: none has an effect or can fail, so the compiler is free to order and to join them, and compares several words at once.
#[tactic(auto, unfolding(crate::specs::Course::copy_test))]
pub fn copy_sound(words: &State) -> bool
    ensures { result ≡ copy_test words.now }
{
    // The size comes first, as only one up to 3 has a count of texels in a word.
    let siz = words[6];
    siz <= 3
        && ((words[22] == texels_per_word(siz as u8))
            & (words[5] <= 255)
            & (words[7] <= 255)
            & (1..=16383).contains(&words[10])
            & (1..=16383).contains(&words[11])
            & (1..=16383).contains(&words[12])
            & (words[13] <= 16383)
            & (words[14] <= 4095)
            & (words[15] <= 4095)
            & (1..=1023).contains(&words[16])
            & (1..=1023).contains(&words[17])
            & (words[18] <= 2047)
            & (words[19] <= 65535)
            & (words[20] <= 65535)
            & (words[21] <= 512))
}

#[tactic(auto, unfolding(crate::specs::Course::place_test))]
pub fn place_sound(words: &State) -> bool
    ensures { result ≡ place_test words.now }
{
    copy_sound(words)
        & ((words[23] < words[16])
            & (words[24] < words[17])
            & (1 <= words[26])
            & room(words[24], words[26], words[17])
            & room(words[25], words[26], words[12])
            & (1 <= words[27])
            & room(words[23], words[27], words[16])
            & (words[29] <= 15)
            & (1..=1038).contains(&words[30])
            & room(words[28], words[30], words[11])
            & (words[31] <= 1039))
}

// The entries that are still to come, at the most.
pub fn copy_left(stage: Stage, p: Place) -> u64
    requires { SoundPlace p }
    ensures { result ≡ left_copy stage p }
{
    let rows = 1024 * (1024 - p.y);
    let cells = 5 * (rows - p.x);
    match stage {
        Stage::Strip(Due::Image) => 5 * rows + 1,
        Stage::Strip(Due::Rect) => cells - 4,
        Stage::Tile7 => cells,
        Stage::Tile0 => cells - 1,
        Stage::Size => cells - 2,
        Stage::Load => cells - 3,
        Stage::Done => 0,
    }
}
