// The planner: it hands out one entry a step.
#![tactic(auto)]

mod step;
mod types;

pub use types::{Course, Given, Planner, Step, Stepped, Stop};
