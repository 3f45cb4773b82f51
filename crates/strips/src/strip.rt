// One strip of a copy plan: its columns in the image, and its rows.
ghost use Rattle.std.specs.Prelude.{◌≡◌, cond, ◌+◌, ◌-◌, ◌≤◌, ◌<◌};
ghost use Rattle.signed.specs.Floor.{modulo};
ghost use Rattle.plan.specs.Copy.{column, strip_row_of};
ghost use Rattle.plan.specs.Sound.{SoundCopy};
ghost use Rattle.strips.specs.Strip.{Less, Room, Aligned, width_of, left_of, line_of, StripIs, HeightIs};

use plan::{Copy, Strip};

// That a cell lies in its frame stands in clauses: a type for it would hold the frame, and be made anew at each strip.

// The image column of cell x; a flipped frame counts from its right end.
pub fn column_at(c: Copy, x: u64) -> u64
    requires sound_copy { SoundCopy c }
    requires x_lt_width { x < c.width }
    ensures { Less (modulo (column c x) c.image_width) c.image_width result }
{
    if c.flip {
        let end = (c.source_x + c.frame_cells) as i64;
        let back = (1 + c.x_skip + x) as i64;
        signed::wrapped(end - back, c.image_width)
    } else {
        let sx = (c.source_x + c.x_skip + x) as i64;
        signed::wrapped(sx, c.image_width)
    }
}

// The cells left, and no more than the columns before the wrap.
fn width_at(c: Copy, x: u64, sx: u64) -> u64
    requires sound_copy { SoundCopy c }
    requires x_lt_width { x < c.width }
    requires sx_bound { sx < c.image_width }
    ensures { result ≡ width_of c x sx }
{
    if c.flip {
        (c.width - x).min(sx + 1)
    } else {
        (c.width - x).min(c.image_width - sx)
    }
}

// The strip's first column in the image.
fn source_left(c: Copy, sx: u64, strip_width: u64) -> u64
    requires sx_bound { sx < c.image_width }
    requires image_width_bound { c.image_width ≤ 16383 }
    requires strip_width_bound { strip_width ≤ cond c.flip (sx + 1) (c.image_width - sx) }
    ensures { Room (left_of c sx strip_width) strip_width c.image_width result }
{
    if c.flip { sx + 1 - strip_width } else { sx }
}

// Rounded down to the texels of a word.
fn aligned(c: Copy, n: u64) -> u64
    requires sound_copy { SoundCopy c }
    requires n_bound { n ≤ 16383 }
    ensures { Aligned c n result }
{
    n / c.texels_per_word * c.texels_per_word
}

// The words of a line. By cases, so that each quotient is by a constant, which the compiler turns into a shift.
pub fn line_of(siz: u64, load_width: u64) -> u64
    requires siz_bound { siz ≤ 3 }
    requires load_width_bound { load_width ≤ 16383 }
    ensures { result ≡ line_of siz load_width }
{
    match siz {
        0 => load_width.div_ceil(16),
        1 => (load_width * 2).div_ceil(16),
        2 => (load_width * 4).div_ceil(16),
        _ => (load_width * 8).div_ceil(32),
    }
}

// The strip at cell x, from its image column.
pub fn strip_from(c: Copy, x: u64, sx: u64) -> Strip
    requires sound_copy { SoundCopy c }
    requires x_lt_width { x < c.width }
    requires less { Less (modulo (column c x) c.image_width) c.image_width sx }
    ensures { StripIs c x result }
{
    let strip_width = width_at(c, x, sx);
    let source_left = source_left(c, sx, strip_width);
    let aligned_left = aligned(c, source_left);
    let offset = source_left - aligned_left;
    let load_width = offset + strip_width;
    let line = line_of(c.siz, load_width);
    Strip {
        strip_width,
        aligned_left,
        offset,
        load_width,
        line,
    }
}

pub fn strip_of(c: Copy, x: u64) -> Strip
    requires sound_copy { SoundCopy c }
    requires x_lt_width { x < c.width }
    ensures { StripIs c x result }
{
    strip_from(c, x, column_at(c, x))
}

// The image row of line y.
pub fn strip_row(c: Copy, y: u64) -> u64
    requires sound_copy { SoundCopy c }
    requires y_lt_height { y < c.height }
    ensures { Less (strip_row_of c y) c.image_height result }
{
    (c.source_y + y) % c.image_height
}

// The lines of the strip at line y and image row sy.
pub fn strip_height(c: Copy, y: u64, sy: u64) -> u64
    requires sound_copy { SoundCopy c }
    requires y_lt_height { y < c.height }
    requires less { Less (strip_row_of c y) c.image_height sy }
    ensures { HeightIs c y sy result }
{
    c.rows.min(c.height - y).min(c.image_height - sy)
}
