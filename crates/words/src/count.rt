// The numbers that a plan's end gives, kept as its entries are given.
ghost use Rattle.std.specs.Prelude.{◌≡◌, ◌≤◌};
ghost use Rattle.plan.specs.Sound.{entry_rows};
ghost use Rattle.words.specs.Counts.{Countable, counted_of, end_with};

use object::Verdict;
use plan::{End, Entry};

// What an end tells of the entries before it, and `line`, tile 7's as they set it.
// `Countable` is no invariant of the type: counts that meet it may not do so after one entry more. A planner knows how many come, and has it in its own invariant.
#[derive(Clone, Copy)]
pub struct Counts {
    pub entries: u64,
    pub rectangles: u64,
    pub words: u64,
    pub line: u64,
}

// One entry more.
#[tactic(auto, unfolding(crate::specs::Counts::counted_of))]
pub fn counted(n: Counts, e: Entry) -> Counts
    requires countable { Countable n }
    requires e_bound { entry_rows e ≤ 16384 }
    ensures { result ≡ counted_of n e }
{
    let mut next = n;
    next.entries = n.entries + 1;
    match e {
        Entry::Tile { index: 7, line, .. } => {
            next.line = line;
        }
        Entry::Load { rows, .. } => {
            next.words = n.words.max(rows * n.line);
        }
        Entry::Rect { .. } => {
            next.rectangles = n.rectangles + 1;
        }
        Entry::Image { .. } | Entry::Tile { .. } | Entry::Size { .. } => {}
    }
    next
}

// The end that these counts and a verdict make.
pub fn end_of(n: Counts, v: Verdict) -> End
    ensures { result ≡ end_with n v }
{
    End {
        verdict: v,
        entries: n.entries,
        rectangles: n.rectangles,
        words: n.words,
    }
}
