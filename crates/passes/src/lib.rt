// A scaled plan entry by entry: where it starts, and what comes next.
#![tactic(auto)]

mod step;

pub use step::{scaled_next, scaled_start};
