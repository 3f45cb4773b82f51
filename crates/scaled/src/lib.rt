// The set-up of scaled plans: the clipped frame, where it starts in the image, and the strips' numbers.
#![tactic(auto)]

mod clip;
mod start;
mod strip;

pub use clip::{clip_empty, clip_of};
pub use start::start_of;
pub use strip::{scaled_of, slices_bad};
