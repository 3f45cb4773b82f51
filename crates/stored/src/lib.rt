// A planner as 39 words that a host keeps, and back.
#![tactic(auto)]

mod planner_words;

pub use planner_words::{load, stored};
