// Background objects: their fields, out of the bytes.
#![tactic(auto)]

mod decode;
mod reader;
mod types;

pub use decode::{byte, decode_obj_bg, half, word};
pub use reader::{Reader, field_from};
pub use types::{Background, OBJECT_BYTES, ObjBg, Scissor, Verdict};
