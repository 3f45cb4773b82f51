// The three measures, their sums, and the conversions between them.
#![tactic(auto)]

mod measure;
mod sums;
mod types;

pub use measure::{
    edge, extent, in_image, lines_at, of_lines, of_position, of_rows, of_texels, of_thirty_seconds,
    of_words, quarters, row_part, sampled_by, shown_at, signed_whole, strip_lines, texels,
    thirty_seconds, whole, whole_rows, whole_texels,
};
pub use types::{Quarters, Scale, ThirtySeconds};
