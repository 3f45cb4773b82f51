// Demand 3's numbers of a scaled plan, rectangle by rectangle: the strip and the distance between the sampled and the exact position.
#![tactic(auto)]

mod found;
mod measure;
mod strip;
mod types;

pub use found::{apt, place_of, ruler_of};
pub use measure::{ahead, taken};
pub use types::{Begun, Over, Place, Ruler, Taken};
