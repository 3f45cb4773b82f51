// The tile bank: two setters by value, over each a thin one that is lent the bank, and an owner's call of that.
ghost use Rattle.std.specs.Prelude.{◌≡◌};
ghost use Rattle.tile.specs.Bank.{replaced as replaced_by, resized as resized_to, set_tile, set_size, extent};

// `TileDescriptor` of the Rust, in its order.
#[derive(Clone, Copy)]
pub struct Tile {
    pub uls: u16,
    pub ult: u16,
    pub lrs: u16,
    pub lrt: u16,
    pub width: u16,
    pub height: u16,
    pub fmt: u8,
    pub siz: u8,
    pub palette: u8,
    pub cms: u8,
    pub cmt: u8,
    pub masks: u8,
    pub maskt: u8,
    pub shifts: u8,
    pub shiftt: u8,
    pub line: u16,
    pub tmem_addr: u16,
}

// A tile's first and last column and row, in quarters of a texel: a setter and a load's request take them together.
#[derive(Clone, Copy)]
pub struct Bounds {
    pub uls: u16,
    pub ult: u16,
    pub lrs: u16,
    pub lrt: u16,
}

#[derive(Clone, Copy)]
pub struct Bank {
    pub tiles: [Tile; 8],
}

// A tile set anew: its bounds, width and height stay.
fn replaced(old: Tile, tile: Tile) -> Tile
    ensures { result ≡ replaced_by old tile }
{
    Tile {
        uls: old.uls,
        ult: old.ult,
        lrs: old.lrs,
        lrt: old.lrt,
        width: old.width,
        height: old.height,
        ..tile
    }
}

// The two by-value functions are the customer's form. One over a closure would have a contract longer than both bodies.

// Sets a tile; there is none from 8 on, and nothing is set.
#[tactic(auto, unfolding(crate::specs::Bank::set_tile))]
fn with_tile(bank: Bank, index: usize, tile: Tile) -> Bank
    ensures { result ≡ set_tile bank index tile }
{
    let mut next = bank;
    if index < 8 {
        next.tiles[index] = replaced(bank.tiles[index], tile);
    }
    next
}

// Texels from one bound to the other, both counted, and 1 where they are the wrong way round.
pub fn texels(low: u16, high: u16) -> u16
    ensures { result ≡ extent low high }
{
    high.saturating_sub(low) / 4 + 1
}

// A tile with other bounds, and the width and height that follow.
fn resized(old: Tile, bounds: Bounds) -> Tile
    ensures { result ≡ resized_to old bounds.uls bounds.ult bounds.lrs bounds.lrt }
{
    Tile {
        uls: bounds.uls,
        ult: bounds.ult,
        lrs: bounds.lrs,
        lrt: bounds.lrt,
        width: texels(bounds.uls, bounds.lrs),
        height: texels(bounds.ult, bounds.lrt),
        ..old
    }
}

// Sets a tile's bounds; nothing where there is no such tile.
#[tactic(auto, unfolding(crate::specs::Bank::set_size))]
fn with_tile_size(bank: Bank, index: usize, bounds: Bounds) -> Bank
    ensures { result ≡ set_size bank index bounds.uls bounds.ult bounds.lrs bounds.lrt }
{
    let mut next = bank;
    if index < 8 {
        next.tiles[index] = resized(bank.tiles[index], bounds);
    }
    next
}

pub fn set_tile(bank: &mut Bank, index: usize, tile: Tile)
    ensures { bank.new ≡ set_tile bank.old index tile }
{
    *bank = with_tile(*bank, index, tile);
}

pub fn set_tile_size(bank: &mut Bank, index: usize, bounds: Bounds)
    ensures { bank.new ≡ set_size bank.old index bounds.uls bounds.ult bounds.lrs bounds.lrt }
{
    *bank = with_tile_size(*bank, index, bounds);
}

// An owner's bank after it was lent to a setter.

pub fn tile_set(bank: Bank, index: usize, tile: Tile) -> Bank
    ensures { result ≡ set_tile bank index tile }
{
    let mut next = bank;
    set_tile(&mut next, index, tile);
    next
}

pub fn size_set(bank: Bank, index: usize, bounds: Bounds) -> Bank
    ensures { result ≡ set_size bank index bounds.uls bounds.ult bounds.lrs bounds.lrt }
{
    let mut next = bank;
    set_tile_size(&mut next, index, bounds);
    next
}
