// A copy plan's end, counted ahead.
#![tactic(auto)]

mod count;

pub use count::count_entries;
