// The parts of a pass's load, in their order: `load_1cyc` and `load_1cyc_tile`.
ghost use Rattle.std.specs.Prelude.{◌≡◌, true, ◌+◌, ◌-◌, ◌≤◌, pos, ◌-ℤ◌};
ghost use Rattle.std.specs.Int.Signed.{lt_z};
ghost use Rattle.measures.specs.Range.{Within};
ghost use Rattle.plan.specs.Sound.{SoundScaled};
ghost use Rattle.plan.specs.Scaled.{back as back_of};
ghost use Rattle.loads.specs.Coming.{sum_out, pass_from, part_then, whole_part, top_then, parts_from, after_part, after_whole};
ghost use Rattle.loads.specs.Loads.{part_bad};
ghost use Rattle.loads.specs.Sound.{SoundPass, SoundPart, SplitIs, Reaches, Meets, Chose, left_pass, after_piece};
ghost use Rattle.loads.specs.declared.types.Piece.TheVariants.{Start, Top, SplitB, SplitA, Rest};

use crate::rows::{less, plus, times};
use crate::sums::{advance, source_address};
use crate::types::{Choice, Part, Piece, Place, Reached, Split, Stage};
use object::Verdict;
use plan::{Scaled, Source};

// Verdict 8: no rows, no columns, or a place before texture memory.
fn part_bad(part: Part) -> bool
    ensures { result ≡ part_bad part.rows part.destination part.width }
{
    part.rows <= 0 || part.width <= 0 || part.destination < 0
}

// The part as the next that is given, with its tile, or verdict 8.
fn enter(k: Piece, part: Part, p: Place) -> Reached
    requires sound_pass { SoundPass p }
    requires sound_part { SoundPart part }
    ensures { Reaches (part_then k p part.pointer part.rows part.destination part.width) (3 + after_piece k + left_pass p) result }
{
    if part_bad(part) {
        return Err(Verdict::Piece);
    }
    let q = Place {
        part,
        piece: k,
        ..p
    };
    Ok((Stage::Tile, q))
}

// The whole load in one part, over the tile that stands.
pub fn whole_part(p: Place) -> Part
    requires { SoundPass p }
    ensures { (result ≡ whole_part p) × SoundPart result }
{
    Part {
        pointer: p.walk.source.pointer,
        rows: plus(p.rows, p.scaled.bilerp),
        destination: 0,
        width: p.scaled.line as i64,
    }
}

// One row back where `odd` is 1, as a load must start at an even row.
fn back(z: Scaled, odd: u64, pointer: u64) -> Option<u64>
    requires { odd ≤ 1 }
    ensures { sum_out result ≡ back_of z odd pointer }
{
    pointer.checked_sub(odd * z.stride)
}

// After the rows up to the image's end: the move, and the rectangle.
// Here and in `moved_on` the place is copied and one field set: by `Place { next, ..p }` each field is copied by itself, and a step took 9 parts in 100 more instructions.
fn moved(p: Place) -> Reached
    requires { SoundPass p }
    ensures { Reaches (pass_from p (after_part Rest p)) (1 + left_pass p) result }
{
    let next = advance(p.scaled, p.walk.source, p.rows).ok_or(Verdict::Address)?;
    let mut q = p;
    q.next = next;
    Ok((Stage::Rect, q))
}

// The move where no row wraps.
pub fn moved_on(p: Place) -> Reached
    requires { SoundPass p }
    ensures { Reaches (pass_from p (after_whole p)) (1 + left_pass p) result }
{
    let source = p.walk.source;
    let bytes = times(p.rows, p.scaled.stride);
    let pointer = source_address(source.pointer, bytes).ok_or(Verdict::Address)?;
    let remain = source.remain - p.rows;
    let next = Source { pointer, remain };
    let mut q = p;
    q.next = next;
    Ok((Stage::Rect, q))
}

// The rows before the image's last.
fn rest(p: Place) -> Reached
    requires sound_pass { SoundPass p }
    requires meets { Meets Choice.Rest p }
    ensures { Reaches (pass_from p (after_part SplitA p)) (4 + left_pass p) result }
{
    let source = p.walk.source;
    let part = Part {
        pointer: source.pointer,
        rows: less(source.remain, p.scaled.split),
        destination: 0,
        width: p.scaled.line as i64,
    };
    enter(Piece::Rest, part, p)
}

// The two parts of the image's last row: their rows, where they go, and the width of the first.
fn split(z: Scaled, source: Source) -> Split
    requires sound_scaled { SoundScaled z }
    requires within { Within 43 source.remain }
    ensures { SplitIs z source result }
{
    let loadable = less(source.remain, z.split);
    let odd = signed::rem_euclid(loadable, 2);
    let from = times(less(loadable, odd), z.line);
    let width = signed::floor_div(less(z.stride as i64, z.x_offset), 8);
    Split { odd, from, width }
}

fn split_a(p: Place) -> Reached
    requires { SoundPass p }
    ensures { Reaches (pass_from p (after_part SplitB p)) (7 + left_pass p) result }
{
    let s = split(p.scaled, p.walk.source);
    let part = Part {
        pointer: p.spare,
        rows: s.odd as i64 + 1,
        destination: s.from,
        width: s.width,
    };
    enter(Piece::SplitA, part, p)
}

// The second part of the last row comes first.
fn split_b(pointer: u64, spare: u64, s: Split, p: Place) -> Reached
    requires sound_pass { SoundPass p }
    requires split_is { SplitIs p.scaled p.walk.source s }
    ensures { Reaches (parts_from p pointer spare) (10 + left_pass p) result }
{
    let part = Part {
        pointer,
        rows: s.odd as i64 + 1,
        destination: s.from + s.width,
        width: p.scaled.line as i64 - s.width,
    };
    let q = Place { spare, ..p };
    enter(Piece::SplitB, part, q)
}

// The image's last row where it runs over into the first.
fn split_row(p: Place) -> Reached
    requires sound_pass { SoundPass p }
    requires meets { Meets Choice.SplitB p }
    ensures { Reaches (pass_from p (after_part Top p)) (10 + left_pass p) result }
{
    let z = p.scaled;
    let source = p.walk.source;
    let s = split(z, source);
    let loadable = less(source.remain, z.split);
    let p1 = source_address(source.pointer, times(loadable, z.stride)).ok_or(Verdict::Address)?;
    let p1a = back(z, s.odd, p1).ok_or(Verdict::Address)?;
    let p1b = back(z, s.odd, z.address).ok_or(Verdict::Address)?;
    split_b(p1b, p1a, s, p)
}

// The rows from the image's top, after its last row.
fn from_top(lines: i64, p: Place) -> Reached
    requires sound_pass { SoundPass p }
    requires within { Within 44 lines }
    requires remain_value { lt_z (pos 0) (lines -ℤ p.walk.source.remain) ≡ true }
    ensures { Reaches (top_then p lines) (13 + left_pass p) result }
{
    let z = p.scaled;
    let remain = p.walk.source.remain;
    let rows = lines - remain;
    let first = z.address.checked_add(z.x_offset).ok_or(Verdict::Address)?;
    let odd = signed::rem_euclid(remain, 2);
    let pointer = back(z, odd, first).ok_or(Verdict::Address)?;
    let part = Part {
        pointer,
        rows: plus(rows, odd),
        destination: times(less(remain, odd), z.line),
        width: z.line as i64,
    };
    enter(Piece::Top, part, p)
}

// A load that wraps starts with the rows from the top.
fn top(p: Place) -> Reached
    requires sound_pass { SoundPass p }
    requires meets { Meets Choice.Top p }
    ensures { Reaches (pass_from p (after_part Start p)) (13 + left_pass p) result }
{
    from_top(plus(p.rows, p.scaled.bilerp), p)
}

// A load that does not wrap is one part.
fn whole(p: Place) -> Reached
    requires sound_pass { SoundPass p }
    requires meets { Meets Choice.Whole p }
    ensures { Reaches (pass_from p (after_part Start p)) (13 + left_pass p) result }
{
    let part = whole_part(p);
    if part_bad(part) {
        return Err(Verdict::Piece);
    }
    Ok((Stage::Whole, p))
}

// The rows before the image's last; where there are none, the tile alone.
fn after_split(p: Place) -> Choice
    requires { SoundPass p }
    ensures { Chose SplitA p result }
{
    if less(p.walk.source.remain, p.scaled.split) <= 0 {
        Choice::Last
    } else {
        Choice::Rest
    }
}

// The image's last row has parts of its own only where it runs over.
fn after_top(p: Place) -> Choice
    requires { SoundPass p }
    ensures { Chose Top p result }
{
    if p.scaled.split == 0 {
        after_split(p)
    } else {
        Choice::SplitB
    }
}

// The whole load where no row wraps; else the rows from the top, where there are any.
fn at_start(p: Place) -> Choice
    requires { SoundPass p }
    ensures { Chose Start p result }
{
    let remain = p.walk.source.remain;
    let load_rows = plus(p.rows, p.scaled.bilerp);
    if load_rows <= less(remain, p.scaled.split) {
        Choice::Whole
    } else if load_rows - remain <= 0 {
        after_top(p)
    } else {
        Choice::Top
    }
}

// The part that comes after a part, chosen before it is made, so that each is made in one place.
fn chosen(k: Piece, p: Place) -> Choice
    requires { SoundPass p }
    ensures { Chose k p result }
{
    match k {
        Piece::Start => at_start(p),
        Piece::Top => after_top(p),
        Piece::SplitB => Choice::SplitA,
        Piece::SplitA => after_split(p),
        Piece::Rest => Choice::Move,
    }
}

// What comes after a part. With calls in place of `Choice`, `after_split` and `after_top` would stand in two callers, and each part would be compiled twice.
pub fn after_part(k: Piece, p: Place) -> Reached
    requires { SoundPass p }
    ensures { Reaches (pass_from p (after_part k p)) (after_piece k + left_pass p) result }
{
    match chosen(k, p) {
        Choice::Whole => whole(p),
        Choice::Top => top(p),
        Choice::SplitB => split_row(p),
        Choice::SplitA => split_a(p),
        Choice::Rest => rest(p),
        Choice::Last => Ok((Stage::Last, p)),
        Choice::Move => moved(p),
    }
}
