// An entry as eleven words, what it adds to the counts, and what it does to a bank.
#![tactic(auto)]

mod buffer;
mod count;
mod entry;

pub use buffer::{put, store};
pub use count::{Counts, counted, end_of};
pub use entry::{
    bank_after, end_words, entry_words, image_words, load_words, rect_words, size_words, tile_words,
};
