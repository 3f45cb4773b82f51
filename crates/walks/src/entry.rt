// The entries of a pass: tiles, texture image, load and rectangle.
ghost use Rattle.std.specs.Prelude.{◌≡◌, cond, ◌≤◌, ◌^◌, eqb};
ghost use Rattle.measures.specs.Measure.{quarters, of_texels};
ghost use Rattle.measures.specs.Range.{Below, Within};
ghost use Rattle.plan.specs.Sound.{SoundScaled};
ghost use Rattle.plan.specs.Scaled.{tile7 as tile7_of, lrs_of, lrt_of, rect_of};
ghost use Rattle.loads.specs.Coming.{tile0 as tile0_of, image_of, rows_out};
ghost use Rattle.loads.specs.Sound.{SoundPass, SoundPart, loaded_out};

use loading::width_field;
use loads::{Part, Place, Refused};
use measures::Quarters;
use plan::{Entry, Scaled};
use signed::signed16;
use tile::Bounds;

// The loads' texels are of 16 bits, or of 32 for siz 3. Here too siz stays a number, as the entries have it (load_tile's `words_in` has the reason).
fn load_size(siz: u64) -> u64
    ensures { (result ≡ cond (eqb siz 3) 3 2) × (result ≤ 3) }
{
    if siz == 3 { 3 } else { 2 }
}

// A tile's line is cut to its field of 16 bits, by a remainder: a word stays a word, and a cast must not lose bits. A destination is a signed number, so `low16` cuts it.
pub fn tile7(z: Scaled, destination: i64) -> Entry
    ensures { result ≡ tile7_of z destination }
{
    Entry::Tile {
        index: 7,
        fmt: 0,
        siz: load_size(z.siz),
        line: z.line % 65536,
        tmem: u64::from(signed::low16(destination)),
        palette: 0,
        cms: 0,
        cmt: 0,
        masks: 0,
        maskt: 0,
    }
}

pub fn tile0(z: Scaled) -> Entry
    ensures { result ≡ tile0_of z }
{
    Entry::Tile {
        index: 0,
        fmt: z.fmt,
        siz: z.siz,
        line: z.line % 65536,
        tmem: 0,
        palette: z.palette,
        cms: 1,
        cmt: 1,
        masks: 15,
        maskt: 15,
    }
}

pub fn image(z: Scaled, pointer: u64) -> Entry
    requires { SoundScaled z }
    ensures { result ≡ image_of z pointer }
{
    Entry::Image {
        fmt: 0,
        siz: load_size(z.siz),
        width: u64::from(width_field(z.stride / 2)),
        address: pointer,
    }
}

// A load's right bound.
fn right(width: i64) -> u16
    requires { Within 47 width }
    ensures { result ≡ lrs_of width }
{
    let q = measures::of_words(width - 1);
    signed::low16(q.0)
}

// A load's lower bound; with 32 bits a load has one row.
fn lower(z: Scaled, rows: i64) -> u16
    requires { Within 47 rows }
    ensures { result ≡ lrt_of z rows }
{
    if z.siz == 3 {
        return 0;
    }
    let q = measures::of_texels(rows);
    signed::low16(q.0 - 1)
}

// The load of a part, or the size that a refused load has set.
pub fn load(z: Scaled, q: Part) -> Result<Entry, Refused>
    requires sound_scaled { SoundScaled z }
    requires sound_part { SoundPart q }
    ensures { loaded_out result ≡ rows_out z q }
{
    let siz = load_size(z.siz) as u8;
    let bounds = Bounds {
        uls: 0,
        ult: 0,
        lrs: right(q.width),
        lrt: lower(z, q.rows),
    };
    loading::tile7_load(siz, width_field(z.stride / 2), q.pointer, bounds).map_err(Refused)
}

// A frame position that is known not to be negative, so that no test is needed.
fn position(q: Quarters) -> u64
    requires { Below 62 q.0 }
    ensures { result ≡ quarters q }
{
    q.0 as u64
}

// Where a line of the frame lies.
fn line_at(line: u64) -> u64
    requires { line ≤ 2 ^ 40 }
    ensures { result ≡ of_texels line }
{
    position(measures::of_texels(line as i64))
}

// The rectangle of a pass, with the image row before its loads; texture coordinates and steps are cut to their 16 bits.
pub fn rect(p: Place) -> Entry
    requires { SoundPass p }
    ensures { result ≡ rect_of p.scaled p.walk p.lines }
{
    let z = p.scaled;
    let w = p.walk;
    let rows = z.source_rows as i64 - w.source.remain;
    Entry::Rect {
        tile: 0,
        ulx: position(z.x),
        uly: line_at(w.frame_y),
        lrx: position(z.x_end),
        lry: line_at(w.frame_y + p.lines),
        uls: signed16(z.s.0),
        ult: signed16(w.t.0),
        dsdx: signed16(z.scale_w.0 as i64),
        dtdy: signed16(z.scale_h.0 as i64),
        row: signed::wrapped(rows, z.source_rows),
    }
}
