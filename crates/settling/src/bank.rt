// What entries set in the words of a bank that a host lends: an entry by itself, or the last of each kind once a plan is written.
// The bank is no array, since each promise here holds of a bank of any length and would be narrower of one of 136 words; a count hands on a bank of one. A tile is set from the plan's words at a place: an array of the entry's words would have to be cut out and unwrapped first.
ghost use Rattle.std.specs.Prelude.{◌≡◌, ◌+◌, ◌≤◌, ◌<◌, length};
ghost use Rattle.plan.specs.Sound.{Narrow};
ghost use Rattle.giving.specs.Host.{tile_in, bounds_in, words_step};
ghost use Rattle.giving.specs.Places.{BoundsIn, PlacesIn, tile_at, bounds_at, tile_settled, bounds_settled, settled_of};

use giving::{Places, TILE};
use plan::Entry;
use tile::texels;
use words::put;

// Sets all of a tile but its bounds, width and height; nothing where there is no such tile. The definitions take an entry's numbers one by one, so these are parameters and no struct.
fn set_tile(
    bank: &mut [u64],
    index: u64,
    fmt: u64,
    siz: u64,
    line: u64,
    tmem: u64,
    palette: u64,
    cms: u64,
    cmt: u64,
    masks: u64,
    maskt: u64,
)
    ensures { bank.new ≡ tile_in bank.old index fmt siz line tmem palette cms cmt masks maskt }
{
    if index < (bank.len() / TILE) as u64 {
        let numbers = [fmt, siz, palette, cms, cmt, masks, maskt, 0, 0, line, tmem];
        put(bank, index as usize * TILE + 6, &numbers);
    }
}

// Sets a tile's bounds, and the width and height that follow.
fn set_bounds(bank: &mut [u64], index: u64, uls: u64, ult: u64, lrs: u64, lrt: u64)
    requires { (uls ≤ 65535) × ((ult ≤ 65535) × ((lrs ≤ 65535) × (lrt ≤ 65535))) }
    ensures { bank.new ≡ bounds_in bank.old index uls ult lrs lrt }
{
    if index < (bank.len() / TILE) as u64 {
        let width = u64::from(texels(uls as u16, lrs as u16));
        let height = u64::from(texels(ult as u16, lrt as u16));
        let numbers = [uls, ult, lrs, lrt, width, height];
        put(bank, index as usize * TILE, &numbers);
    }
}

// What an entry sets in the bank's words; a load sets its tile's size itself.
#[tactic(auto, unfolding(giving::specs::Host::words_step))]
pub fn set_words(bank: &mut [u64], e: Entry)
    requires { Narrow e }
    ensures { bank.new ≡ words_step bank.old e }
{
    match e {
        Entry::Tile {
            index,
            fmt,
            siz,
            line,
            tmem,
            palette,
            cms,
            cmt,
            masks,
            maskt,
        } => {
            set_tile(
                bank, index, fmt, siz, line, tmem, palette, cms, cmt, masks, maskt,
            );
        }
        Entry::Size {
            index,
            uls,
            ult,
            lrs,
            lrt,
        }
        | Entry::Load {
            index,
            uls,
            ult,
            lrs,
            lrt,
            ..
        } => {
            set_bounds(bank, index, uls, ult, lrs, lrt);
        }
        Entry::Image { .. } | Entry::Rect { .. } => {}
    }
}

// Sets a tile by the entry at a place of the plan, behind its kind and its index.
pub fn tile_at(bank: &mut [u64], index: u64, plan: &[u64], place: usize)
    requires { place + 9 < length plan.now }
    ensures { bank.new ≡ tile_at bank.old index plan.now place }
{
    set_tile(
        bank,
        index,
        plan[place + 1],
        plan[place + 2],
        plan[place + 3],
        plan[place + 4],
        plan[place + 5],
        plan[place + 6],
        plan[place + 7],
        plan[place + 8],
        plan[place + 9],
    );
}

// Sets a tile's bounds by the size or the load at a place of the plan.
pub fn bounds_at(bank: &mut [u64], index: u64, plan: &[u64], place: usize)
    requires { BoundsIn plan.now place }
    ensures { bank.new ≡ bounds_at bank.old index plan.now place }
{
    set_bounds(
        bank,
        index,
        plan[place + 1],
        plan[place + 2],
        plan[place + 3],
        plan[place + 4],
    );
}

// The same where there is such an entry: 0 is no place. Not one function with the next: over a closure its contract would be longer than both.
fn settle_tile(bank: &mut [u64], index: u64, plan: &[u64], place: usize)
    requires { 1 ≤ place → place + 9 < length plan.now }
    ensures { bank.new ≡ tile_settled bank.old index plan.now place }
{
    if place != 0 {
        tile_at(bank, index, plan, place);
    }
}

// Likewise the bounds.
fn settle_bounds(bank: &mut [u64], index: u64, plan: &[u64], place: usize)
    requires { 1 ≤ place → BoundsIn plan.now place }
    ensures { bank.new ≡ bounds_settled bank.old index plan.now place }
{
    if place != 0 {
        bounds_at(bank, index, plan, place);
    }
}

// Sets in the bank what the entries of a plan set: the last of each kind alone, as they overwrite each other.
#[tactic(auto, unfolding(giving::specs::Places::settled_of))]
pub fn settle(bank: &mut [u64], places: Places, plan: &[u64])
    requires { PlacesIn plan.now places }
    ensures { bank.new ≡ settled_of bank.old plan.now places }
{
    settle_tile(bank, 0, plan, places.tile0);
    settle_tile(bank, 7, plan, places.tile7);
    settle_bounds(bank, 0, plan, places.bounds0);
    settle_bounds(bank, 7, plan, places.bounds7);
}
