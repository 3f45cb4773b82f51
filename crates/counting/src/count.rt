// A copy plan's end counted ahead, strip by strip with no entry made, so that a host can size its buffer.
ghost use Rattle.std.specs.Prelude.{◌≡◌, ◌%◌, ◌≤◌};
ghost use Rattle.plan.specs.Out.{plan_out};
ghost use Rattle.plan.specs.Copy.{copy_plan};
ghost use Rattle.plan.specs.Run.{end_of};
ghost use Rattle.plan.specs.Sound.{SoundCopy};
ghost use Rattle.counting.specs.Count.{wrap_column, refused_at};

use load_tile::{bytes_of, granted, length, offset, words_in};
use object::Verdict;
use plan::{Copy, End, Strip};
use strips::{column_at, strip_from, strip_height, strip_row};

// Image row sy, or the first where sy is past the last: compared, as a remainder is a division for each row of strips; in C the same loops took twice as long with one.
fn row_after(c: Copy, sy: u64) -> u64
    requires { (1 ≤ c.image_height) × (sy ≤ c.image_height) }
    ensures { result ≡ sy % c.image_height }
{
    if sy == c.image_height { 0 } else { sy }
}

// The load of the strip from this row would reach the end of the address space: the sums of a load's request over the strip's own numbers, which are not cut to a tile's 16 bits. siz is a number here too, as an entry has it.
fn refused(c: Copy, s: Strip, sy: u64, strip_height: u64) -> bool
    requires sound_copy { SoundCopy c }
    requires columns { (s.aligned_left ≤ 16383) × ((1 ≤ s.load_width) × (s.load_width ≤ 1038)) }
    requires rows { (sy ≤ 16383) × ((1 ≤ strip_height) × (strip_height ≤ 1024)) }
    ensures { result ≡ refused_at c s sy strip_height }
{
    let row = bytes_of(c.siz, c.image_width);
    let offset = offset(c.siz, row, s.aligned_left, sy);
    let length = length(strip_height, row, words_in(c.siz, s.load_width - 1));
    !granted(c.address, offset, length)
}

// The row walk and the column walk: the first strip that is refused ends both at once. Every strip but the first of its row starts at image column `wrap`.
fn count_strips(c: Copy, wrap: u64) -> End
    requires sound_copy { SoundCopy c }
    requires wrap_value { wrap ≡ wrap_column c }
    ensures { result ≡ end_of (plan_out (copy_plan c)) }
{
    let first = column_at(c, 0);
    let mut entries: u64 = 1;
    let mut rectangles: u64 = 0;
    let mut words: u64 = 0;
    let mut verdict = Verdict::Finished;
    let mut y: u64 = 0;
    let mut sy = strip_row(c, 0);
    'rows: while y < c.height {
        let strip_height = strip_height(c, y, sy);
        let mut x: u64 = 0;
        let mut sx = first;
        'columns: while x < c.width {
            let strip = strip_from(c, x, sx);
            let size = strip.line * strip_height;
            if c.capacity < size {
                verdict = Verdict::TooBig;
                break 'rows;
            }
            if refused(c, strip, sy, strip_height) {
                entries += 3;
                verdict = Verdict::Address;
                break 'rows;
            }
            entries += 5;
            rectangles += 1;
            words = words.max(size);
            x += strip.strip_width;
            sx = wrap;
        }
        y += strip_height;
        sy = row_after(c, sy + strip_height);
    }
    End {
        verdict,
        entries,
        rectangles,
        words,
    }
}

// The end of a whole copy plan, by a call for each way that a frame runs, so that the compiler knows `wrap` in each.
pub fn count_entries(c: Copy) -> End
    requires { SoundCopy c }
    ensures { result ≡ end_of (plan_out (copy_plan c)) }
{
    if c.flip {
        count_strips(c, c.image_width - 1)
    } else {
        count_strips(c, 0)
    }
}
