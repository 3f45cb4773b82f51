// The set-up of a scaled plan: the parts that its passes start from, or the verdict that ends it before them.
#![tactic(auto)]

mod parts;

pub use parts::{SetUp, set_up};
