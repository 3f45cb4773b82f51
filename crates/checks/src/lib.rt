// The checks that a request must pass, in the verdicts' order.
#![tactic(auto)]

mod check;

pub use check::{COPY, checked, number};
