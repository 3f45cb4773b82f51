// The text of a plan, in pieces that fill the bytes that the caller lends; the planner of a case.
#![tactic(auto)]

mod case;
mod text;

pub use case::case_planner;
pub use text::{Chunk, next_text};
