// What one cell of a copy background shows, from the object's fields and without a plan.
#![tactic(auto)]

mod engine;
mod host;
mod types;

pub use host::visor_sample;
