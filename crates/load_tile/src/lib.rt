// The arithmetic of a tile's load: what the host reads for it.
#![tactic(auto)]

mod load;

pub use load::{LoadRequest, bytes_of, granted, length, load_request, offset, words_in};
