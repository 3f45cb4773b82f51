// The load into tile 7 as an entry, and the width field of its image, for both planners.
#![tactic(auto)]

mod load;

pub use load::{tile7_load, width_field};
