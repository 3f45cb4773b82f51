// The planner of any request: the checks, the set-up of its mode, and where its plan starts.
#![tactic(auto)]

mod start;

pub use start::fresh;
