// A planner's request, out of the bytes of a case and out of a host's seven words.
#![tactic(auto)]

mod host;
mod stored;
mod types;

pub use host::{from_words, scissor_from};
pub use stored::{CASE_BYTES, from_bytes};
pub use types::Request;
