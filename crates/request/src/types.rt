// What a planner is asked besides the object's bytes, which stay the caller's.
use object::Scissor;

#[derive(Clone, Copy)]
pub struct Request {
    pub opcode: u8,
    pub scissor: Scissor,
    pub mode: u32,
    pub address: u64,
}
