// The copy walk, one entry a step: the texture image, then a strip's five entries, strip after strip.
ghost use Rattle.std.specs.Prelude.{◌≡◌, ◌+◌, ◌≤◌, ◌<◌};
ghost use Rattle.measures.specs.Measure.{quarters, of_texels};
ghost use Rattle.measures.specs.Range.{Below};
ghost use Rattle.plan.specs.Copy.{bound};
ghost use Rattle.plan.specs.Sound.{SoundCopy};
ghost use Rattle.copy.specs.Walk.{place_at, start_at, SoundPlace, SoundAt, image_entry, tile_entry, tile0_entry, size_entry, area_of, first_texel, rect_entry, due_entry, too_big, copy_next_of};
ghost use Rattle.copy.specs.declared.types.Stage.TheVariants as stage;

use crate::types::{CopyEnd, CopyNext, Due, Place, Stage};
use loading::width_field;
use measures::Quarters;
use plan::{Copy, Entry, Strip};
use strips::{strip_height, strip_of, strip_row};
use tile::Bounds;

// At cell x of the row of strips at line y; that it lies in the frame stands in clauses, as in `strips`.
pub fn place_at(c: Copy, x: u64, y: u64, sy: u64, strip_height: u64) -> Place
    requires sound_copy { SoundCopy c }
    requires x_lt_width { x < c.width }
    ensures { result ≡ place_at c x y sy strip_height }
{
    let strip = strip_of(c, x);
    Place {
        copy: c,
        x,
        y,
        sy,
        strip_height,
        strip,
    }
}

// Before the first row: no cell is to its right, and the row below is the first, so the walk finds it as any other. Written out in full: a default of `Strip` would be no strip, and serve this place alone.
pub fn copy_start(c: Copy) -> Place
    ensures { result ≡ start_at c }
{
    let strip = Strip {
        strip_width: 0,
        aligned_left: 0,
        offset: 0,
        load_width: 0,
        line: 0,
    };
    Place {
        copy: c,
        x: c.width,
        y: 0,
        sy: 0,
        strip_height: 0,
        strip,
    }
}

fn image_entry(c: Copy) -> Entry
    requires { SoundCopy c }
    ensures { result ≡ image_entry c }
{
    let width = width_field(c.image_width);
    Entry::Image {
        fmt: c.fmt,
        siz: c.siz,
        width: u64::from(width),
        address: c.address,
    }
}

// The line is cut to its field of 16 bits, by a remainder: a word stays a word, and a cast must not lose bits.
fn tile_entry(p: Place, index: u64, cms: u64, masks: u64) -> Entry
    ensures { result ≡ tile_entry p index cms masks }
{
    let c = p.copy;
    let s = p.strip;
    Entry::Tile {
        index,
        fmt: c.fmt,
        siz: c.siz,
        line: s.line % 65536,
        tmem: 0,
        palette: c.palette,
        cms,
        cmt: 0,
        masks,
        maskt: 0,
    }
}

fn tile0_entry(p: Place) -> Entry
    ensures { result ≡ tile0_entry p }
{
    let c = p.copy;
    if c.flip {
        tile_entry(p, 0, 1, 15)
    } else {
        tile_entry(p, 0, 0, 0)
    }
}

// A bound of a number of texels, in quarters.
fn bound_of(texels: u64) -> u16
    requires { texels ≤ 65535 }
    ensures { result ≡ bound texels }
{
    let q = measures::of_texels(texels as i64);
    signed::low16(q.0)
}

fn size_entry(p: Place) -> Entry
    requires { SoundPlace p }
    ensures { result ≡ size_entry p }
{
    let s = p.strip;
    let lrs = bound_of(s.load_width - 1);
    let lrt = bound_of(p.strip_height - 1);
    Entry::Size {
        index: 0,
        uls: 0,
        ult: 0,
        lrs: u64::from(lrs),
        lrt: u64::from(lrt),
    }
}

pub fn area_of(p: Place) -> Bounds
    requires { SoundPlace p }
    ensures { result ≡ area_of p }
{
    let s = p.strip;
    let uls = bound_of(s.aligned_left);
    let ult = bound_of(p.sy);
    let lrs = bound_of(s.aligned_left + s.load_width - 1);
    let lrt = bound_of(p.sy + p.strip_height - 1);
    Bounds { uls, ult, lrs, lrt }
}

// A flipped strip starts at the end of what was loaded, and runs back.
fn first_texel(flip: bool, load_width: u64, offset: u64) -> i64
    requires { (load_width ≤ 65535) × (offset ≤ 65535) }
    ensures { result ≡ first_texel flip load_width offset }
{
    let texel = if flip {
        -(load_width as i64)
    } else {
        offset as i64
    };
    let s = measures::of_rows(texel);
    signed::signed16(s.0)
}

// Where a cell lies that is a number of cells after an edge. It is never negative, so its number is taken as it is: `quarters` would test its sign at each strip.
fn cell_at(edge: Quarters, cells: u64) -> u64
    requires { (Below 12 edge.0) × (cells ≤ 1023) }
    ensures { result ≡ quarters edge + of_texels cells }
{
    let after = measures::of_texels(cells as i64);
    (edge.0 + after.0) as u64
}

// The ends are the last cells, which the rectangle includes.
fn rect_entry(p: Place) -> Entry
    requires { SoundPlace p }
    ensures { result ≡ rect_entry p }
{
    let c = p.copy;
    let s = p.strip;
    let uls = first_texel(c.flip, s.load_width, s.offset);
    Entry::Rect {
        tile: 0,
        ulx: cell_at(c.left, p.x),
        uly: cell_at(c.top, p.y),
        lrx: cell_at(c.left, p.x + s.strip_width - 1),
        lry: cell_at(c.top, p.y + p.strip_height - 1),
        uls,
        ult: 0,
        dsdx: 0x1000,
        dtdy: 0x400,
        row: p.sy,
    }
}

// The strip does not fit texture memory.
pub fn too_big(p: Place) -> bool
    requires { SoundPlace p }
    ensures { result ≡ too_big p }
{
    p.copy.capacity < p.strip.line * p.strip_height
}

#[tactic(auto, unfolding(crate::specs::Walk::tile7_next, crate::specs::Walk::copy_next_of))]
fn tile7_next(p: Place) -> CopyNext
    requires { SoundPlace p }
    ensures { result ≡ copy_next_of stage.Tile7 p }
{
    if too_big(p) {
        return Err(CopyEnd::TooBig);
    }
    let entry = tile_entry(p, 7, 0, 0);
    Ok((entry, Stage::Tile0, p))
}

// The load, or the size that a refused one has set.
#[tactic(auto, unfolding(crate::specs::Walk::copy_next_of, crate::specs::Walk::load_next))]
fn load_next(p: Place) -> CopyNext
    requires { SoundPlace p }
    ensures { result ≡ copy_next_of stage.Load p }
{
    let c = p.copy;
    let width = width_field(c.image_width);
    let load = loading::tile7_load(c.siz as u8, width, c.address, area_of(p));
    let entry = load.map_err(CopyEnd::Overflow)?;
    Ok((entry, Stage::Strip(Due::Rect), p))
}

fn due_entry(due: Due, p: Place) -> Entry
    requires { SoundAt (stage.Strip due) p }
    ensures { result ≡ due_entry due p }
{
    match due {
        Due::Image => image_entry(p.copy),
        Due::Rect => rect_entry(p),
    }
}

// The strip to the right, the first of the row below, or the end: found here alone, so that the compiler puts it in line.
fn strip_next(due: Due, p: Place) -> CopyNext
    requires { SoundAt (stage.Strip due) p }
    ensures { result ≡ copy_next_of (stage.Strip due) p }
{
    let c = p.copy;
    let s = p.strip;
    let entry = due_entry(due, p);
    let right = p.x + s.strip_width;
    let (x, y, sy, height) = if right < c.width {
        (right, p.y, p.sy, p.strip_height)
    } else {
        let below = p.y + p.strip_height;
        if c.height <= below {
            return Ok((entry, Stage::Done, p));
        }
        let row = strip_row(c, below);
        (0, below, row, strip_height(c, below, row))
    };
    let place = place_at(c, x, y, sy, height);
    Ok((entry, Stage::Tile7, place))
}

// The stages are data, and no closures: a host keeps a planner as words, and there is no heap.
#[tactic(auto, unfolding(crate::specs::Walk::copy_next_of))]
pub fn copy_next(stage: Stage, place: Place) -> CopyNext
    requires { SoundAt stage place }
    ensures { result ≡ copy_next_of stage place }
{
    match stage {
        Stage::Strip(due) => strip_next(due, place),
        Stage::Tile7 => tile7_next(place),
        Stage::Tile0 => {
            let entry = tile0_entry(place);
            Ok((entry, Stage::Size, place))
        }
        Stage::Size => {
            let entry = size_entry(place);
            Ok((entry, Stage::Load, place))
        }
        Stage::Load => load_next(place),
        Stage::Done => Err(CopyEnd::Finished),
    }
}
