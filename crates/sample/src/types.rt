// What one cell of a copy background shows.
use object::Verdict;

// The image's column and row; or the cell lies outside the clipped frame; or the object or the scissor is refused.
#[derive(Clone, Copy)]
pub enum Sample {
    Texel { column: u64, row: u64 },
    Outside,
    Refused(Verdict),
}
