// The parts of a scaled plan's load: their rows, their addresses, and where a walk stands.
#![tactic(auto)]

mod load;
mod rows;
mod sums;
mod types;

pub use load::{after_part, moved_on, whole_part};
pub use rows::{less, plus, times};
pub use sums::{advance, forward, source_address};
pub use types::{
    Begun, Choice, Due, Part, Piece, Place, Reached, Refused, ScaledNext, Split, Stage, Turn,
};
