// A scaled course in words and out of them, and the test of such words that is what a step asks of its place. A word goes by its place in the list of `scaled_words`, as in crates/stored_copy.
#![tactic(auto)]

ghost use Rattle.std.specs.Prelude.{◌≡◌, ◌^◌, ◌≤◌, get_or};
ghost use Rattle.signed.specs.Diff.{up};
ghost use Rattle.loads.specs.Sound.{left_at, after_piece};
ghost use Rattle.stored_fields.specs.Signed.{signed_at};
ghost use Rattle.stored_scaled.specs.Course.{stage_word, piece_word, scaled_words, FitsPlace, stage_from, piece_from, scaled_from, walk_from, place_from, scaled_test, walk_test, whole_test, pass_test, piece_test, rect_test, at_start, at_pass, at_piece, at_rect, stage_test};

use loads::{Part, Piece, Place, Stage};
use measures::{Quarters, Scale, ThirtySeconds, quarters, thirty_seconds};
use plan::{Scaled, Source, Walk};
use stored_fields::{State, above, below, room};
use words::Counts;

fn stage_word(s: Stage) -> u64
    ensures { result ≡ stage_word s }
{
    8 + s as u64
}

fn piece_word(s: Piece) -> u64
    ensures { result ≡ piece_word s }
{
    s as u64
}

pub fn scaled_words(stage: Stage, p: Place, n: Counts) -> State
    ensures { (result ≡ scaled_words stage p n) × FitsPlace p }
{
    let z = p.scaled;
    let w = p.walk;
    [
        stage_word(stage),
        n.entries,
        n.rectangles,
        n.words,
        n.line,
        z.fmt,
        z.siz,
        z.palette,
        z.address,
        quarters(z.x),
        quarters(z.x_end),
        z.scale_w.0,
        z.scale_h.0,
        z.bilerp,
        z.split,
        z.source_rows,
        z.line,
        z.image_rows,
        z.frame_rows,
        z.stride,
        z.x_offset,
        z.s.0.cast_unsigned(),
        w.frame_y,
        w.frame_remain.cast_unsigned(),
        w.count.cast_unsigned(),
        w.slice_rows.cast_unsigned(),
        thirty_seconds(w.t),
        w.source.pointer,
        w.source.remain.cast_unsigned(),
        p.rows.cast_unsigned(),
        p.lines,
        p.part.pointer,
        p.part.rows.cast_unsigned(),
        p.part.destination.cast_unsigned(),
        p.part.width.cast_unsigned(),
        p.spare,
        p.next.pointer,
        p.next.remain.cast_unsigned(),
        piece_word(p.piece),
    ]
}

// Total, and likewise for pieces: `stored::load` refuses a number that is none, as its words are not those of what it reads as.
pub fn stage_from(k: u64) -> Stage
    ensures { result ≡ stage_from k }
{
    match k {
        8 => Stage::First,
        9 => Stage::Second,
        10 => Stage::Whole,
        11 => Stage::WholeLoad,
        12 => Stage::Tile,
        13 => Stage::Image,
        14 => Stage::Load,
        15 => Stage::Last,
        16 => Stage::Size,
        _ => Stage::Rect,
    }
}

fn piece_from(k: u64) -> Piece
    ensures { result ≡ piece_from k }
{
    match k {
        0 => Piece::Start,
        1 => Piece::Top,
        2 => Piece::SplitB,
        3 => Piece::SplitA,
        _ => Piece::Rest,
    }
}

#[tactic(auto, unfolding(crate::specs::Course::scaled_from))]
fn scaled_from(words: &State) -> Scaled
    ensures { result ≡ scaled_from words.now }
{
    Scaled {
        source_rows: words[15],
        line: words[16],
        image_rows: words[17],
        frame_rows: words[18],
        stride: words[19],
        x_offset: words[20],
        split: words[14],
        bilerp: words[13],
        address: words[8],
        fmt: words[5],
        siz: words[6],
        palette: words[7],
        x: Quarters(words[9].cast_signed()),
        x_end: Quarters(words[10].cast_signed()),
        s: ThirtySeconds(words[21].cast_signed()),
        scale_w: Scale(words[11]),
        scale_h: Scale(words[12]),
    }
}

#[tactic(auto, unfolding(crate::specs::Course::walk_from))]
fn walk_from(words: &State) -> Walk
    ensures { result ≡ walk_from words.now }
{
    Walk {
        frame_y: words[22],
        frame_remain: words[23].cast_signed(),
        count: words[24].cast_signed(),
        slice_rows: words[25].cast_signed(),
        t: ThirtySeconds(words[26].cast_signed()),
        source: Source {
            pointer: words[27],
            remain: words[28].cast_signed(),
        },
    }
}

#[tactic(auto, unfolding(crate::specs::Course::place_from))]
pub fn place_from(words: &State) -> Place
    ensures { result ≡ place_from words.now }
{
    Place {
        scaled: scaled_from(words),
        walk: walk_from(words),
        rows: words[29].cast_signed(),
        lines: words[30],
        part: Part {
            pointer: words[31],
            rows: words[32].cast_signed(),
            destination: words[33].cast_signed(),
            width: words[34].cast_signed(),
        },
        spare: words[35],
        next: Source {
            pointer: words[36],
            remain: words[37].cast_signed(),
        },
        piece: piece_from(words[38]),
    }
}

// What no pass changes, and the walk's part of a row. Here and below tests are joined by `&` and `|`, without a short circuit: none has an effect, and none can fail, as the factors of each product are tested before it; so the compiler is free to order and to join them, and makes one branch of many.
#[tactic(auto, unfolding(crate::specs::Course::scaled_test))]
fn scaled_sound(words: &State) -> bool
    ensures { result ≡ scaled_test words.now }
{
    (words[5] <= 255)
        & (words[6] <= 3)
        & (words[7] <= 255)
        & (1..=512).contains(&words[16])
        & (1..=512).contains(&words[17])
        & (16..=0x2000_0000).contains(&words[18])
        & (8..=65535).contains(&words[19])
        & (words[20] <= 65535)
        & (1..=16383).contains(&words[15])
        & (1..=65535).contains(&words[12])
        & (words[11] <= 65535)
        & (words[13] <= 1)
        & (words[14] <= 1)
        & (words[9] <= 4095)
        & (words[10] <= 16383)
        & (words[26] <= 31)
}

#[tactic(auto, unfolding(crate::specs::Course::walk_from, crate::specs::Course::walk_test))]
fn walk_sound(words: &State) -> bool
    ensures { result ≡ walk_test (walk_from words.now) }
{
    let lines = above(words[23]);
    let count = above(words[24]);
    let less = below(words[25]);
    // First what the sums are made of, so that none overflows.
    lines <= 1023
        && count <= 0x8000_0000
        && (room(words[22], lines, 4096)
            & (below(words[24]) == 0)
            & (less <= 0x800_0000)
            & (above(words[25]) <= 512)
            & room(
                below(words[28]),
                1280000 * lines,
                0x100_0000_0000 + 20000 * (count / 16),
            )
            & room(above(words[28]), less, 0x1000_0000))
}

// The rows are those of the walk where another pass follows.
#[tactic(auto, unfolding(crate::specs::Course::place_from, crate::specs::Course::walk_from))]
fn whole_sound(words: &State) -> bool
    ensures { result ≡ whole_test (place_from words.now) }
{
    (above(words[23]) <= above(words[24]) / 1024)
        | ((above(words[29]) == above(words[25])) & (below(words[29]) == below(words[25])))
}

#[tactic(auto, unfolding(crate::specs::Course::place_from, crate::specs::Course::walk_from, crate::specs::Course::pass_test))]
fn pass_sound(words: &State) -> bool
    ensures { result ≡ pass_test (place_from words.now) }
{
    let lines = above(words[23]);
    let draw = above(words[24]) / 1024;
    (1 <= draw)
        & (1 <= lines)
        & (words[30] == draw.min(lines))
        & (below(words[29]) <= 0x1000_0000)
        & (above(words[29]) <= 512)
        & whole_sound(words)
}

#[tactic(auto, unfolding(crate::specs::Course::place_from, crate::specs::Course::piece_test))]
fn piece_sound(words: &State) -> bool
    ensures { result ≡ piece_test (place_from words.now).part }
{
    (below(words[32]) <= 0x8000_0000_0000)
        & (above(words[32]) <= 0x7fff_ffff_ffff)
        & (below(words[34]) <= 0x8000_0000_0000)
        & (above(words[34]) <= 0x7fff_ffff_ffff)
}

#[tactic(auto, unfolding(crate::specs::Course::place_from, crate::specs::Course::scaled_from, crate::specs::Course::walk_from, crate::specs::Course::rect_test))]
fn rect_sound(words: &State) -> bool
    requires { (up (signed_at words.now 23) ≤ 1023) × (get_or words.now 18 0 ≤ 2 ^ 29) }
    ensures { result ≡ rect_test (place_from words.now) }
{
    let lines = above(words[23]);
    let count = above(words[24]);
    let draw = count / 1024;
    let rows = (count % 1024 + words[18]) / 16;
    (lines <= draw)
        | (room(
            below(words[37]),
            1280000 * lines.saturating_sub(draw),
            0x100_0000_0000 + 20000 * rows,
        ) & (above(words[37]) <= 0x1000_0000))
}

fn at_start(words: &State) -> bool
    ensures { result ≡ at_start words.now }
{
    scaled_sound(words) & walk_sound(words)
}

fn at_pass(words: &State) -> bool
    ensures { result ≡ at_pass words.now }
{
    at_start(words) & pass_sound(words)
}

fn at_piece(words: &State) -> bool
    ensures { result ≡ at_piece words.now }
{
    at_pass(words) & piece_sound(words)
}

#[tactic(auto, unfolding(crate::specs::Course::place_from, crate::specs::Course::walk_from, crate::specs::Course::scaled_test, crate::specs::Course::walk_test))]
fn at_rect(words: &State) -> bool
    ensures { result ≡ at_rect words.now }
{
    at_pass(words) && rect_sound(words)
}

// What a step asks of the place, by its stage.
pub fn stage_sound(stage: Stage, words: &State) -> bool
    ensures { result ≡ stage_test stage words.now }
{
    match stage {
        Stage::First | Stage::Second | Stage::Size => at_start(words),
        Stage::Whole | Stage::WholeLoad | Stage::Last => at_pass(words),
        Stage::Tile | Stage::Image | Stage::Load => at_piece(words),
        Stage::Rect => at_rect(words),
    }
}

fn after_piece(piece: Piece) -> u64
    ensures { (result ≡ after_piece piece) × (result ≤ 13) }
{
    match piece {
        Piece::Start => 13,
        Piece::Top => 10,
        Piece::SplitB => 7,
        Piece::SplitA => 4,
        Piece::Rest => 1,
    }
}

// The entries that are still to come, at the most.
#[tactic(auto, unfolding(crate::specs::Course::place_from, crate::specs::Course::walk_from))]
pub fn scaled_left(stage: Stage, words: &State) -> u64
    requires { up (signed_at words.now 23) ≤ 1023 }
    ensures { result ≡ left_at stage (place_from words.now) }
{
    let lines = above(words[23]);
    let all = 14 * lines;
    let later = 14 * lines.saturating_sub(1);
    let after = after_piece(piece_from(words[38]));
    match stage {
        Stage::First => 3 + all,
        Stage::Second => 2 + all,
        Stage::Whole => 3 + later,
        Stage::WholeLoad => 2 + later,
        Stage::Tile => 3 + after + later,
        Stage::Image => 2 + after + later,
        Stage::Load => 1 + after + later,
        Stage::Last => 2 + later,
        Stage::Size => 1 + all,
        Stage::Rect => 1 + later,
    }
}
