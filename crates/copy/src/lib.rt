// The walk of a copy plan, from entry to entry.
#![tactic(auto)]

mod types;
mod walk;

pub use types::{CopyEnd, CopyNext, Due, Place, Stage};
pub use walk::{copy_next, copy_start};
