// A copy plan's frame, clipped by the scissor, and the columns and rows of one strip.
#![tactic(auto)]

mod frame;
mod strip;

pub use frame::{copy_empty, copy_of, texels_per_word};
pub use strip::{column_at, line_of, strip_from, strip_height, strip_of, strip_row};
