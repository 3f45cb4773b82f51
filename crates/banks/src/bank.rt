// A bank out of words and as words: eight tiles of seventeen. By name and not by From, since the bank's type and the definitions of its words lie in lower crates.
ghost use Rattle.std.specs.Prelude.{◌≡◌, ◌%◌, ◌^◌};
ghost use Rattle.plan.specs.Check.{tile_numbers};
ghost use Rattle.giving.specs.Host.{bank_from, bank_numbers, tile_from};

use giving::TILE;
use tile::{Bank, Tile};

// A word cut to its field, by a remainder, as a cast must not lose bits: one function for each width, as a cast names its type.

fn half(word: u64) -> u16
    ensures { result ≡ word % 2 ^ 16 }
{
    (word % 65536) as u16
}

fn byte(word: u64) -> u8
    ensures { result ≡ word % 2 ^ 8 }
{
    (word % 256) as u8
}

// A tile's words as the tile.
#[tactic(auto, unfolding(giving::specs::Host::tile_from))]
fn tile_from(words: [u64; TILE]) -> Tile
    ensures { result ≡ tile_from words }
{
    Tile {
        uls: half(words[0]),
        ult: half(words[1]),
        lrs: half(words[2]),
        lrt: half(words[3]),
        width: half(words[4]),
        height: half(words[5]),
        fmt: byte(words[6]),
        siz: byte(words[7]),
        palette: byte(words[8]),
        cms: byte(words[9]),
        cmt: byte(words[10]),
        masks: byte(words[11]),
        maskt: byte(words[12]),
        shifts: byte(words[13]),
        shiftt: byte(words[14]),
        line: half(words[15]),
        tmem_addr: half(words[16]),
    }
}

pub fn bank_from(words: &[u64; 136]) -> Bank
    ensures { result ≡ bank_from words.now }
{
    let tiles = <[[u64; TILE]; 8]>::try_from(words.as_chunks::<TILE>().0).unwrap();
    Bank {
        tiles: [
            tile_from(tiles[0]),
            tile_from(tiles[1]),
            tile_from(tiles[2]),
            tile_from(tiles[3]),
            tile_from(tiles[4]),
            tile_from(tiles[5]),
            tile_from(tiles[6]),
            tile_from(tiles[7]),
        ],
    }
}

#[tactic(auto, unfolding(plan::specs::Check::tile_numbers))]
fn tile_words(t: Tile) -> [u64; TILE]
    ensures { result ≡ tile_numbers t }
{
    [
        u64::from(t.uls),
        u64::from(t.ult),
        u64::from(t.lrs),
        u64::from(t.lrt),
        u64::from(t.width),
        u64::from(t.height),
        u64::from(t.fmt),
        u64::from(t.siz),
        u64::from(t.palette),
        u64::from(t.cms),
        u64::from(t.cmt),
        u64::from(t.masks),
        u64::from(t.maskt),
        u64::from(t.shifts),
        u64::from(t.shiftt),
        u64::from(t.line),
        u64::from(t.tmem_addr),
    ]
}

pub fn words_of(bank: Bank) -> [u64; 136]
    ensures { result ≡ bank_numbers bank }
{
    let mut words = [0u64; 136];
    words.copy_from_slice(bank.tiles.map(tile_words).as_flattened());
    words
}
