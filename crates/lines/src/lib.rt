// The text of an entry and of an end: right-justified columns, written into bytes that the caller lends.
#![tactic(auto)]

mod column;
mod line;

pub use line::{end_line, entry_line};
