// The three measures. A measure's range (`Below`, `Within`) is another at nearly every step of a set-up, so it stands in clauses: with a type for each range every step would convert.

// 10.2: widths, heights and frame positions, in quarters of a texel.
#[derive(Clone, Copy, PartialEq, Eq, PartialOrd, Ord)]
pub struct Quarters(pub i64);

// 10.5: image_x, image_y and the origin, in thirty-seconds of a texel.
#[derive(Clone, Copy)]
pub struct ThirtySeconds(pub i64);

// 5.10: scales, in 1,024ths.
#[derive(Clone, Copy)]
pub struct Scale(pub u64);
