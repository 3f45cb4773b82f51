// A host's request: opcode, four edges, render mode, address, a word each.
ghost use Rattle.std.specs.Prelude.{◌≡◌, ◌%◌, ◌^◌};
ghost use Rattle.request.specs.Host.{opcode_kept, edge_kept, edges_kept, KeptIs, HostIs};

use crate::types::Request;
use object::Scissor;
use std::array::TryFromSliceError;

// No opcode lies above 255, and 0 is none.
fn opcode(n: u64) -> u8
    ensures { result ≡ opcode_kept n }
{
    u8::try_from(n).unwrap_or(0)
}

// No edge lies above 1023, and −1 is none. By a comparison, as the definition cuts at 1,024 and `try_from` would cut at 2^31.
fn edge(n: u64) -> i32
    ensures { result ≡ edge_kept n }
{
    if n < 1024 { n as i32 } else { -1 }
}

// The scissor of four words, of which each that is no edge is cut.
pub fn scissor_from(ulx: u64, uly: u64, lrx: u64, lry: u64) -> Scissor
    ensures { result ≡ edges_kept ulx uly lrx lry }
{
    Scissor {
        ulx: edge(ulx),
        uly: edge(uly),
        lrx: edge(lrx),
        lry: edge(lry),
    }
}

// The mode is a word's low 32 bits, by a remainder: a cast must not lose bits.
fn mode(n: u64) -> u32
    ensures { result ≡ n % 2 ^ 32 }
{
    (n % 0x1_0000_0000) as u32
}

// An opcode or an edge that this cuts is refused either way, so the plan is that of the words as they stand. Named by its source, as `from_be_bytes` is: a case's bytes make a request too.
pub fn from_words(words: &[u64; 7]) -> Request
    ensures { KeptIs words.now result }
{
    Request {
        opcode: opcode(words[0]),
        scissor: scissor_from(words[1], words[2], words[3], words[4]),
        mode: mode(words[5]),
        address: words[6],
    }
}

impl TryFrom<&[u64]> for Request {
    type Error = TryFromSliceError;

    ghost try_from_gives = { λ words r. HostIs words.now r };

    fn try_from(words: &[u64]) -> Result<Request, TryFromSliceError> {
        let words = <&[u64; 7]>::try_from(words)?;
        Ok(from_words(words))
    }
}
