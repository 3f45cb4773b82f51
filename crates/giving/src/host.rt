// What hosts hold as 64-bit words: an end, and how many of them a tile has.
ghost use Rattle.std.specs.Prelude.{◌≡◌};
ghost use Rattle.giving.specs.Host.{end_numbers};

use checks::number;
use plan::End;

// A tile's words: its fields in their order.
pub const TILE: usize = 17;

// The verdict's number and the three counts.
#[tactic(auto, unfolding(crate::specs::Host::end_numbers))]
pub fn end_numbers(end: End) -> [u64; 4]
    ensures { result ≡ end_numbers end }
{
    let v = end.verdict;
    [number(v), end.entries, end.rectangles, end.words]
}
