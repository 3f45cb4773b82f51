// The load into tile 7: its entry where the request is granted, and its texture image's width field.
ghost use Rattle.std.specs.Prelude.{◌≡◌, ◌≤◌, ◌<◌, ◌^◌, pos, ◌-ℤ◌};
ghost use Rattle.signed.specs.Cast.{u16};
ghost use Rattle.load_tile.specs.Load.{request_of};
ghost use Rattle.loading.specs.Load.{answer_of};

use load_tile::load_request;
use plan::Entry;
use tile::Bounds;

// The width field of the texture image that a load reads: one less than a row's texels, cut to 16 bits.
pub fn width_field(texels: u64) -> u16
    requires { texels < 2 ^ 63 }
    ensures { result ≡ u16 (pos texels -ℤ pos 1) }
{
    signed::low16(texels as i64 - 1)
}

// The load of tile 7 from the texture image's siz, width field and address and the tile's bounds; or the size that a refused load has set. Each planner has an error type of its own, so the size is given as the entry alone.
pub fn tile7_load(siz: u8, width: u16, address: u64, bounds: Bounds) -> Result<Entry, Entry>
    requires { siz ≤ 3 }
    ensures { result ≡ answer_of (request_of siz width address bounds.uls bounds.ult bounds.lrs bounds.lrt) bounds }
{
    let uls = u64::from(bounds.uls);
    let ult = u64::from(bounds.ult);
    let lrs = u64::from(bounds.lrs);
    let lrt = u64::from(bounds.lrt);
    match load_request(siz, width, address, bounds) {
        Some(request) => Ok(Entry::Load {
            index: 7,
            uls,
            ult,
            lrs,
            lrt,
            words: request.words,
            rows: request.rows,
            stride: request.stride,
            start: request.start,
            length: request.length,
        }),
        None => Err(Entry::Size {
            index: 7,
            uls,
            ult,
            lrs,
            lrt,
        }),
    }
}
