// The conversions between the measures, and between a measure and whole texels, rows and lines. Elsewhere plain numbers are divided and multiplied: a tile's bounds and a rectangle's lines, which are fields of an entry (tile, load_tile, ruler), sums and counts in 1,024ths (ruler, stored_scaled), a ruler's image height and origin, and the words of a row (scaled).
// Widths, heights and image positions are never negative: a number below 0 counts as 0.
// The customer names three tuple structs and conversions by name: a trait over two of them would be longer than the pairs that it joins.
ghost use Rattle.std.specs.Prelude.{◌≡◌, ◌≤◌, ◌<◌, ◌^◌, ◌/◌, pos};
ghost use Rattle.measures.specs.Measure.{quarters, thirty_seconds, texels, whole_texels, whole_rows, edge, lines_at, of_position, of_lines, whole, in_quarters, in_thirty_seconds, in_scale, extent, width_in_image, width_sampled, width_shown, texels_wide, words_wide, rows_high, row_part};
ghost use Rattle.measures.specs.Range.{Below, Within};

use crate::types::{Quarters, Scale, ThirtySeconds};
use signed::positive;

// A field's number as a measure.

impl From<u16> for Quarters {
    ghost from_gives = { λ n q. q ≡ in_quarters (pos n) };

    fn from(n: u16) -> Quarters {
        Quarters(i64::from(n))
    }
}

impl From<i16> for Quarters {
    ghost from_gives = { λ z q. q ≡ in_quarters z };

    fn from(z: i16) -> Quarters {
        Quarters(i64::from(z))
    }
}

impl From<u16> for ThirtySeconds {
    ghost from_gives = { λ n t. t ≡ in_thirty_seconds (pos n) };

    fn from(n: u16) -> ThirtySeconds {
        ThirtySeconds(i64::from(n))
    }
}

impl From<i32> for ThirtySeconds {
    ghost from_gives = { λ z t. t ≡ in_thirty_seconds z };

    fn from(z: i32) -> ThirtySeconds {
        ThirtySeconds(i64::from(z))
    }
}

impl From<u16> for Scale {
    ghost from_gives = { λ n h. h ≡ in_scale n };

    fn from(n: u16) -> Scale {
        Scale(u64::from(n))
    }
}

pub fn quarters(q: Quarters) -> u64
    ensures { result ≡ quarters q }
{
    positive(q.0)
}

pub fn thirty_seconds(t: ThirtySeconds) -> u64
    ensures { result ≡ thirty_seconds t }
{
    positive(t.0)
}

// A number of quarters, as a width.
pub fn of_quarters(n: u64) -> Quarters
    requires { n < 2 ^ 63 }
    ensures { result ≡ in_quarters (pos n) }
{
    Quarters(n as i64)
}

// A number of thirty-seconds, as an image position.
pub fn of_thirty_seconds(n: u64) -> ThirtySeconds
    requires { n < 2 ^ 63 }
    ensures { result ≡ in_thirty_seconds (pos n) }
{
    ThirtySeconds(n as i64)
}

// The Rust's `.max(0)` of a number of quarters.
pub fn extent(q: Quarters) -> Quarters
    ensures { result ≡ extent q.0 }
{
    of_quarters(quarters(q))
}

// Whole texels of a width, whole lines of a height.
pub fn texels(q: Quarters) -> u64
    ensures { result ≡ texels (quarters q) }
{
    quarters(q) / 4
}

// The lines of a strip in texture memory: those of `tmem_h`, which is in quarters too.
pub fn strip_lines(tmem_h: u16) -> u64
    ensures { (result ≡ texels tmem_h) × (result ≤ 16383) }
{
    u64::from(tmem_h / 4)
}

// Cells, texels or lines as a width or a height.
pub fn of_texels(n: i64) -> Quarters
    requires { Within 60 n }
    ensures { result ≡ texels_wide n }
{
    Quarters(n * 4)
}

// 64-bit words of 16-bit texels as a width.
pub fn of_words(n: i64) -> Quarters
    requires { Within 58 n }
    ensures { result ≡ words_wide n }
{
    Quarters(n * 16)
}

// A scissor edge, which is in whole pixels.
pub fn edge(z: i32) -> Quarters
    requires { Below 10 z }
    ensures { result ≡ in_quarters (pos (edge z)) }
{
    of_texels(i64::from(z))
}

// Whole texels of an image position, whole rows of an image height.
pub fn whole_texels(t: ThirtySeconds) -> u64
    ensures { result ≡ whole_texels (thirty_seconds t) }
{
    thirty_seconds(t) / 32
}

// Rows or columns of the image as an image position.
pub fn of_rows(n: i64) -> ThirtySeconds
    requires { Within 57 n }
    ensures { result ≡ rows_high n }
{
    ThirtySeconds(n * 32)
}

// Whole rows of an origin, which may be negative.
pub fn whole_rows(t: ThirtySeconds) -> i64
    ensures { result ≡ whole_rows t.0 }
{
    masks::rows5(t.0)
}

// A width in the image's measure.
pub fn in_image(q: Quarters) -> ThirtySeconds
    requires { quarters q ≤ 2 ^ 20 }
    ensures { result ≡ width_in_image q }
{
    of_thirty_seconds(quarters(q) * 8)
}

// What a frame width at a scale takes of the image.
pub fn sampled_by(q: Quarters, scale: Scale) -> ThirtySeconds
    requires { (quarters q ≤ 2 ^ 20) × (scale.0 ≤ 65535) }
    ensures { result ≡ width_sampled q scale }
{
    of_thirty_seconds((quarters(q) * scale.0) >> 7)
}

// The frame width that an image width gives at a scale.
pub fn shown_at(q: Quarters, scale: Scale) -> Quarters
    requires { (quarters q ≤ 2 ^ 20) × (1 ≤ scale.0) }
    ensures { result ≡ width_shown q scale }
{
    of_quarters((quarters(q) << 10) / scale.0)
}

// Counts of rows and of lines in 1,024ths are no measure: a scale is a ratio.

// The frame lines that image rows give at a scale, in 1,024ths.
pub fn lines_at(rows: u64, scale: Scale) -> u64
    requires { (rows ≤ 512) × (1 ≤ scale.0) }
    ensures { result ≡ lines_at rows scale.0 }
{
    (rows << 20) / scale.0
}

// A distance in the image, in 1,024ths of a row.
pub fn of_position(t: ThirtySeconds) -> i64
    requires { Within 40 t.0 }
    ensures { result ≡ of_position t.0 }
{
    t.0 << 5
}

// Whole lines in 1,024ths.
pub fn of_lines(n: i64) -> i64
    requires { Within 40 n }
    ensures { result ≡ of_lines n }
{
    n << 10
}

// The whole rows or lines of a number of 1,024ths.
pub fn whole(n: u64) -> u64
    ensures { result ≡ n / 1024 }
{
    n >> 10
}

// The same where it may be negative, rounded down.
pub fn signed_whole(n: i64) -> i64
    ensures { result ≡ whole n }
{
    masks::shift10(n)
}

// What a number of 1,024ths of a row has over whole rows.
pub fn row_part(n: u64) -> ThirtySeconds
    ensures { result ≡ row_part (pos n) }
{
    of_thirty_seconds(masks::low5(n >> 5))
}
