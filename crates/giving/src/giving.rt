// An entry given to a host: its words in the plan, the counts after it, and where it stands for the tile that it sets.
ghost use Rattle.std.specs.Prelude.{◌≡◌, ◌+◌, ◌≤◌, length};
ghost use Rattle.std.proofs.Math.Seq.{paste};
ghost use Rattle.plan.specs.Sound.{EntryIn};
ghost use Rattle.plan.specs.Run.{entry_words};
ghost use Rattle.words.specs.Counts.{Countable, counted_of};
ghost use Rattle.giving.specs.Places.{no_places, tile_placed, placed_of};

use plan::Entry;
use words::{Counts, counted, image_words, load_words, rect_words, size_words, store, tile_words};

// Where in the plan the entries stand by which tiles 0 and 7 and their bounds were last set, each place one further on, and 0 for none.
// A bank is set once, by these, and not at each entry. Numbers and no Options: those were tried and proved, and with a step's answer as a Result a run then took 1.5 to 2.4 times as long (with either alone it did not).
#[derive(Clone, Copy)]
pub struct Places {
    pub tile0: usize,
    pub tile7: usize,
    pub bounds0: usize,
    pub bounds7: usize,
}

// No entry has set a tile yet.
pub fn no_places() -> Places
    ensures { result ≡ no_places }
{
    Places {
        tile0: 0,
        tile7: 0,
        bounds0: 0,
        bounds7: 0,
    }
}

// What is known once an entry is given.
#[derive(Clone, Copy)]
pub struct Gave {
    pub counts: Counts,
    pub places: Places,
}

// A tile's entry stands at a place.
fn tile_placed(p: Places, index: u64, place: usize) -> Places
    ensures { result ≡ tile_placed p index place }
{
    if index == 7 {
        Places { tile7: place, ..p }
    } else {
        Places { tile0: place, ..p }
    }
}

// Gives an entry; what is known after it. A table with all that a kind does in one arm, so longer than other functions: the compiler then jumps by the kind once.
pub fn give(plan: &mut [u64], at: usize, places: Places, n: Counts, e: Entry) -> Gave
    requires { (at + 11 ≤ length plan.old) × ((Countable n) × EntryIn e) }
    ensures { (plan.new ≡ paste plan.old at (entry_words e) 11) × (result.counts ≡ counted_of n e) × (result.places ≡ placed_of places at e) }
{
    match e {
        Entry::Image {
            fmt,
            siz,
            width,
            address,
        } => {
            store(plan, at, image_words(fmt, siz, width, address));
            let counts = counted(n, e);
            Gave { counts, places }
        }
        Entry::Tile {
            index,
            fmt,
            siz,
            line,
            tmem,
            palette,
            cms,
            cmt,
            masks,
            maskt,
        } => {
            store(
                plan,
                at,
                tile_words(index, fmt, siz, line, tmem, palette, cms, cmt, masks, maskt),
            );
            let counts = counted(n, e);
            let places = tile_placed(places, index, at + 1);
            Gave { counts, places }
        }
        Entry::Size {
            index,
            uls,
            ult,
            lrs,
            lrt,
        } => {
            store(plan, at, size_words(index, uls, ult, lrs, lrt));
            let counts = counted(n, e);
            let places = Places {
                bounds0: at + 1,
                ..places
            };
            Gave { counts, places }
        }
        Entry::Load {
            index,
            uls,
            ult,
            lrs,
            lrt,
            words,
            rows,
            stride,
            start,
            length,
        } => {
            store(
                plan,
                at,
                load_words(
                    index, uls, ult, lrs, lrt, words, rows, stride, start, length,
                ),
            );
            let counts = counted(n, e);
            let places = Places {
                bounds7: at + 1,
                ..places
            };
            Gave { counts, places }
        }
        Entry::Rect {
            tile,
            ulx,
            uly,
            lrx,
            lry,
            uls,
            ult,
            dsdx,
            dtdy,
            row,
        } => {
            store(
                plan,
                at,
                rect_words(tile, ulx, uly, lrx, lry, uls, ult, dsdx, dtdy, row),
            );
            let counts = counted(n, e);
            Gave { counts, places }
        }
    }
}
