// The passes of a scaled plan: those without a line are passed over, one that draws begins; and its entries.
#![tactic(auto)]

mod entry;
mod walk;

pub use entry::{image, load, rect, tile0, tile7};
pub use walk::{drawn, next_pass};
