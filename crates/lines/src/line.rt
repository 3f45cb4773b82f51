// The lines of entries and ends, into bytes that the caller lends and with an equation for every byte: `Display` would promise nothing of the text.
ghost use Rattle.std.specs.Prelude.{◌≡◌, ◌+◌, ◌≤◌, length};
ghost use Rattle.lines.specs.Text.{line, widths_of, entry_text, end_text};
ghost use Rattle.lines.specs.Lines.{PutIs, total_of};

use crate::column::{WIDE, blank, put};
use plan::{End, Entry};
use words::{end_words, entry_words};

// The places of a row. A loop: the sum of an iterator over mapped widths would need a law to the definition's recursion.
#[tactic(auto, unfolding(crate::specs::Lines::total_of))]
fn total(widths: [u8; 11]) -> usize
    ensures { result ≡ total_of widths }
{
    let mut sum: usize = 0;
    for width in widths {
        sum += usize::from(width);
    }
    sum
}

// A line at a place; the place after it.
fn row(out: &mut [u8], start: usize, widths: [u8; 11], words: [u64; 11]) -> usize
    requires { start + total_of widths + 1 ≤ length out.old }
    ensures { PutIs out.old start (line widths words) out.new result }
{
    blank(out, start, start + total(widths));
    let mut at = start;
    for (width, word) in widths.iter().zip(&words) {
        at = put(out, at, *width, *word);
    }
    out[at] = b'\n';
    at + 1
}

// The widths of an entry's columns, the kind's first.
#[tactic(auto, unfolding(crate::specs::Text::widths_of))]
fn widths_of(e: Entry) -> [u8; 11]
    ensures { result ≡ widths_of e }
{
    match e {
        Entry::Image { .. } => [2, 8, 8, 8, WIDE, 0, 0, 0, 0, 0, 0],
        Entry::Tile { .. } | Entry::Rect { .. } => [2, 8, 8, 8, 8, 8, 8, 8, 8, 8, 8],
        Entry::Size { .. } => [2, 8, 8, 8, 8, 8, 0, 0, 0, 0, 0],
        Entry::Load { .. } => [2, 8, 8, 8, 8, 8, 8, 8, 8, WIDE, WIDE],
    }
}

pub fn entry_line(out: &mut [u8], at: usize, e: Entry) -> usize
    requires { at + 128 ≤ length out.old }
    ensures { PutIs out.old at (entry_text e) out.new result }
{
    row(out, at, widths_of(e), entry_words(e))
}

pub fn end_line(out: &mut [u8], at: usize, e: End) -> usize
    requires { at + 128 ≤ length out.old }
    ensures { PutIs out.old at (end_text e) out.new result }
{
    row(out, at, [2, 8, 8, 8, 8, 0, 0, 0, 0, 0, 0], end_words(e))
}
