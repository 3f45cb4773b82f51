// A whole run, built on the step: its entries in the words that a host lends, or its end alone.
#![tactic(auto)]

mod buffer;

pub use buffer::{count, run};
