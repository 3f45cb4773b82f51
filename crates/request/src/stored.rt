// A case: 40 bytes of object, four edges of 2, the render mode in 4, the opcode in 1, the address in 8.
ghost use Rattle.std.specs.Prelude.{◌≡◌};
ghost use Rattle.request.specs.Stored.{asked_at, case_of};

use crate::types::Request;
use object::{Scissor, byte, field_from, half, word};

// The bytes of a case.
pub const CASE_BYTES: usize = 61;

// What a case asks for besides its object.
fn asked(s: &[u8; CASE_BYTES]) -> Request
    ensures { result ≡ asked_at s.now }
{
    let scissor = Scissor {
        ulx: half(s, 40).into(),
        uly: half(s, 42).into(),
        lrx: half(s, 44).into(),
        lry: half(s, 46).into(),
    };
    Request {
        opcode: byte(s, 52),
        scissor,
        mode: word(s, 48),
        address: field_from(s, 53, 8),
    }
}

// Any bytes; those beyond the 61st are not read, and fewer are no case. Named by its source, as `from_words` is: a host's words make a request too.
#[tactic(auto, unfolding(crate::specs::Stored::case_of))]
pub fn from_bytes(s: &[u8]) -> Option<Request>
    ensures { result ≡ case_of s.now }
{
    s.first_chunk().map(asked)
}
