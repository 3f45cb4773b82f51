// A copy object of a picture: the writer, and that what it writes is never too big.
#![tactic(auto)]

mod types;
mod writer;

pub use types::Written;
pub use writer::{number, write_copy};
