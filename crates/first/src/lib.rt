// The first strip of a scaled plan: which it is, what of it lies above the frame, and its image row.
#![tactic(auto)]

mod first;

pub use first::first_of;
