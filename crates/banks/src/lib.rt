// A bank out of the words that a host lends, and as such words.
#![tactic(auto)]

mod bank;

pub use bank::{bank_from, words_of};
