// An entry given: its eleven words in the plan, its place noted for the bank, and the counts after it; and an end as words.
#![tactic(auto)]

mod giving;
mod host;

pub use giving::{Gave, Places, give, no_places};
pub use host::{TILE, end_numbers};
