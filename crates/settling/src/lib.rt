// The bank in the words that a host lends, set by the last entry of each kind.
#![tactic(auto)]

mod bank;

pub use bank::{bounds_at, set_words, settle, tile_at};
