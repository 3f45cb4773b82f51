// The load request: what `load_tile_typed` asks of the host.
ghost use Rattle.std.specs.Prelude.{◌≡◌, ◌+◌, ◌≤◌, ◌-◌};
ghost use Rattle.load_tile.specs.Load.{AtMost, words_in, words_of, rows_of, bytes_of, stride_of, offset_at, length_of, granted, pick, request_of};

use tile::Bounds;

#[derive(Clone, Copy)]
pub struct LoadRequest {
    pub words: u64,
    pub rows: u64,
    pub stride: u64,
    pub start: u64,
    pub length: u64,
}

// Columns or rows from one bound to the other, and 0 where they are the wrong way round.
fn span(low: u16, high: u16) -> u64
    ensures { result ≡ high - low }
{
    u64::from(high.saturating_sub(low))
}

// The words of a row that has so many columns after its first. siz stays a number, as in an object's byte and an entry's word: an enum would be made and taken apart in every function, and the definitions count in 2^siz.
#[tactic(auto, using(crate::proofs::Shift::half))]
pub fn words_in(siz: u64, columns: u64) -> u64
    requires { siz ≤ 3 }
    ensures { result ≡ words_in siz columns }
{
    (columns >> (4 - siz)) + 1
}

fn words_per_row(siz: u8, uls: u16, lrs: u16) -> u64
    requires { siz ≤ 3 }
    ensures { AtMost (words_of siz uls lrs) 16384 result }
{
    words_in(u64::from(siz), span(uls / 4, lrs / 4))
}

fn row_count(ult: u16, lrt: u16) -> u64
    ensures { AtMost (rows_of ult lrt) 16384 result }
{
    1 + span(ult / 4, lrt / 4)
}

// The bytes of so many texels of a row.
pub fn bytes_of(siz: u64, texels: u64) -> u64
    requires { (siz ≤ 3) × (texels ≤ 65536) }
    ensures { AtMost (bytes_of siz texels) 524288 result }
{
    (texels << siz) / 2
}

fn bytes_per_row(siz: u8, width: u16) -> u64
    requires { siz ≤ 3 }
    ensures { AtMost (stride_of siz width) 524288 result }
{
    bytes_of(u64::from(siz), u64::from(width) + 1)
}

// The bytes before the texel at a column and a row.
pub fn offset(siz: u64, stride: u64, column: u64, row: u64) -> u64
    requires { ((siz ≤ 3) × (stride ≤ 524288)) × ((column ≤ 65535) × (row ≤ 65535)) }
    ensures { result ≡ offset_at siz stride column row }
{
    bytes_of(siz, column) + stride * row
}

// The bytes of rows, the last of which ends with its words.
pub fn length(rows: u64, stride: u64, words: u64) -> u64
    requires { ((1 ≤ rows) × (rows ≤ 16384)) × ((stride ≤ 524288) × (words ≤ 16384)) }
    ensures { result ≡ length_of rows stride words }
{
    (rows - 1) * stride + 8 * words
}

// The start of a span, where start plus length stays within 2^64 - 1: the start is tested, then the span, as the Rust's `checked_span` and `read_bytes_exact` do.
fn granted_start(address: u64, offset: u64, length: u64) -> Option<u64>
    ensures { result ≡ pick (granted (address + offset) length) (address + offset) }
{
    let start = address.checked_add(offset)?;
    start.checked_add(length)?;
    Some(start)
}

pub fn granted(address: u64, offset: u64, length: u64) -> bool
    ensures { result ≡ granted (address + offset) length }
{
    granted_start(address, offset, length).is_some()
}

// The request of a load, from the texture image's siz, width field and address and the tile's bounds; none where its bytes do not end by 2^64 - 1.
pub fn load_request(siz: u8, width: u16, address: u64, bounds: Bounds) -> Option<LoadRequest>
    requires { siz ≤ 3 }
    ensures { result ≡ request_of siz width address bounds.uls bounds.ult bounds.lrs bounds.lrt }
{
    let words = words_per_row(siz, bounds.uls, bounds.lrs);
    let rows = row_count(bounds.ult, bounds.lrt);
    let stride = bytes_per_row(siz, width);
    let offset = offset(
        u64::from(siz),
        stride,
        u64::from(bounds.uls / 4),
        u64::from(bounds.ult / 4),
    );
    let length = length(rows, stride, words);
    let start = granted_start(address, offset, length)?;
    Some(LoadRequest {
        words,
        rows,
        stride,
        start,
        length,
    })
}
