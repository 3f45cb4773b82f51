// Plans of background objects: their entries and ends, and what both planners compute with.
#![tactic(auto)]

mod types;

pub use types::{Answer, Clip, Copy, End, Entry, First, Scaled, Source, Start, Strip, Walk};
