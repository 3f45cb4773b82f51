// One entry: its eleven words, and a bank after it.
ghost use Rattle.std.specs.Prelude.{◌≡◌};
ghost use Rattle.plan.specs.Sound.{Narrow};
ghost use Rattle.plan.specs.Run.{descriptor, bank_step, entry_words, end_words};

use checks::number;
use plan::{End, Entry};
use signed::word_of;
use tile::{Bank, Bounds, Tile, size_set, tile_set};

// The words of each kind: its number, what it gives, signed numbers modulo 2^64, then zeros. Each takes up to ten numbers and no struct, as the definitions do. An entry is eleven words here and wherever plans are words: a number, as docs/SPECIFICATION.md and the header have it.

#[tactic(auto, unfolding(plan::specs::Run::entry_words))]
pub fn image_words(fmt: u64, siz: u64, width: u64, address: u64) -> [u64; 11]
    ensures { result ≡ entry_words (Entry.Image fmt siz width address) }
{
    [1, fmt, siz, width, address, 0, 0, 0, 0, 0, 0]
}

#[tactic(auto, unfolding(plan::specs::Run::entry_words))]
pub fn tile_words(
    index: u64,
    fmt: u64,
    siz: u64,
    line: u64,
    tmem: u64,
    palette: u64,
    cms: u64,
    cmt: u64,
    masks: u64,
    maskt: u64,
) -> [u64; 11]
    ensures { result ≡ entry_words (Entry.Tile index fmt siz line tmem palette cms cmt masks maskt) }
{
    [
        2, index, fmt, siz, line, tmem, palette, cms, cmt, masks, maskt,
    ]
}

#[tactic(auto, unfolding(plan::specs::Run::entry_words))]
pub fn size_words(index: u64, uls: u64, ult: u64, lrs: u64, lrt: u64) -> [u64; 11]
    ensures { result ≡ entry_words (Entry.Size index uls ult lrs lrt) }
{
    [3, index, uls, ult, lrs, lrt, 0, 0, 0, 0, 0]
}

#[tactic(auto, unfolding(plan::specs::Run::entry_words))]
pub fn load_words(
    index: u64,
    uls: u64,
    ult: u64,
    lrs: u64,
    lrt: u64,
    words: u64,
    rows: u64,
    stride: u64,
    start: u64,
    length: u64,
) -> [u64; 11]
    ensures { result ≡ entry_words (Entry.Load index uls ult lrs lrt words rows stride start length) }
{
    [
        4, index, uls, ult, lrs, lrt, words, rows, stride, start, length,
    ]
}

pub fn rect_words(
    tile: u64,
    ulx: u64,
    uly: u64,
    lrx: u64,
    lry: u64,
    uls: i64,
    ult: i64,
    dsdx: i64,
    dtdy: i64,
    row: u64,
) -> [u64; 11]
    ensures { result ≡ entry_words (Entry.Rect tile ulx uly lrx lry uls ult dsdx dtdy row) }
{
    [
        5,
        tile,
        ulx,
        uly,
        lrx,
        lry,
        word_of(uls),
        word_of(ult),
        word_of(dsdx),
        word_of(dtdy),
        row,
    ]
}

// An entry's eleven words. By name and no From, as an end's below: the types and the definitions of their words lie in a lower crate.
pub fn entry_words(e: Entry) -> [u64; 11]
    ensures { result ≡ entry_words e }
{
    match e {
        Entry::Image {
            fmt,
            siz,
            width,
            address,
        } => image_words(fmt, siz, width, address),
        Entry::Tile {
            index,
            fmt,
            siz,
            line,
            tmem,
            palette,
            cms,
            cmt,
            masks,
            maskt,
        } => tile_words(index, fmt, siz, line, tmem, palette, cms, cmt, masks, maskt),
        Entry::Size {
            index,
            uls,
            ult,
            lrs,
            lrt,
        } => size_words(index, uls, ult, lrs, lrt),
        Entry::Load {
            index,
            uls,
            ult,
            lrs,
            lrt,
            words,
            rows,
            stride,
            start,
            length,
        } => load_words(
            index, uls, ult, lrs, lrt, words, rows, stride, start, length,
        ),
        Entry::Rect {
            tile,
            ulx,
            uly,
            lrx,
            lry,
            uls,
            ult,
            dsdx,
            dtdy,
            row,
        } => rect_words(tile, ulx, uly, lrx, lry, uls, ult, dsdx, dtdy, row),
    }
}

// An end's words, which no plan stores: 9, its four numbers, then zeros.
pub fn end_words(end: End) -> [u64; 11]
    ensures { result ≡ end_words end }
{
    [
        9,
        number(end.verdict),
        end.entries,
        end.rectangles,
        end.words,
        0,
        0,
        0,
        0,
        0,
        0,
    ]
}

// The tile that an entry names. Its bounds are not read: setting a tile keeps them. Written out in full: a default would be another definition, for eight numbers that stand here once.
fn described(
    fmt: u8,
    siz: u8,
    line: u16,
    tmem: u16,
    palette: u8,
    cms: u8,
    cmt: u8,
    masks: u8,
    maskt: u8,
) -> Tile
    ensures { result ≡ descriptor fmt siz line tmem palette cms cmt masks maskt }
{
    Tile {
        uls: 0,
        ult: 0,
        lrs: 0,
        lrt: 0,
        width: 0,
        height: 0,
        fmt,
        siz,
        palette,
        cms,
        cmt,
        masks,
        maskt,
        shifts: 0,
        shiftt: 0,
        line,
        tmem_addr: tmem,
    }
}

// The bank once an entry is given; a load sets its tile's size itself.
#[tactic(auto, unfolding(plan::specs::Run::bank_step))]
pub fn bank_after(bank: Bank, e: Entry) -> Bank
    requires { Narrow e }
    ensures { result ≡ bank_step bank e }
{
    match e {
        Entry::Tile {
            index,
            fmt,
            siz,
            line,
            tmem,
            palette,
            cms,
            cmt,
            masks,
            maskt,
        } => {
            let tile = described(
                fmt as u8,
                siz as u8,
                line as u16,
                tmem as u16,
                palette as u8,
                cms as u8,
                cmt as u8,
                masks as u8,
                maskt as u8,
            );
            tile_set(bank, index as usize, tile)
        }
        Entry::Size {
            index,
            uls,
            ult,
            lrs,
            lrt,
        }
        | Entry::Load {
            index,
            uls,
            ult,
            lrs,
            lrt,
            ..
        } => size_set(
            bank,
            index as usize,
            Bounds {
                uls: uls as u16,
                ult: ult as u16,
                lrs: lrs as u16,
                lrt: lrt as u16,
            },
        ),
        Entry::Image { .. } | Entry::Rect { .. } => bank,
    }
}
