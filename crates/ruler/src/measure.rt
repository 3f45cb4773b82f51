// One rectangle's distance, and demand 3's limits.
ghost use Rattle.std.specs.Prelude.{◌≡◌, cond, ◌+◌, ◌*◌, ◌≤◌, ◌^◌, pos, ◌+ℤ◌, ◌*ℤ◌};
ghost use Rattle.std.specs.Int.Signed.{le_z};
ghost use Rattle.measures.specs.Measure.{whole_rows};
ghost use Rattle.measures.specs.Range.{Within};
ghost use Rattle.plan.specs.Demand.{wholes as wholes_of, ahead as ahead_at, behind_of, ahead_of};
ghost use Rattle.small.specs.Small.{Signed16, Small};
ghost use Rattle.ruler.specs.Drifts.{SoundPlace, StripOf, RectIn, RectIs, TakenIs};

use crate::strip::{drawn, next_strip};
use crate::types::{Begun, Over, Place, Ruler, Taken};
use measures::ThirtySeconds;
use plan::Entry;

// The rows of strip `slice` above the start, which no later strip has.
fn above(first_rows: i64, k: i64, slice: i64) -> i64
    ensures { result ≡ cond (le_z k slice) first_rows (pos 0) }
{
    if k <= slice { first_rows } else { 0 }
}

fn sampled(row: u64, ult: i64) -> i64
    requires { (row ≤ 65535) × Signed16 ult }
    ensures { (result ≡ pos (1024 * row) +ℤ pos 32 *ℤ ult) × Within 32 result }
{
    (1024 * row) as i64 + 32 * ult
}

// The limit ahead of a strip. It is promised at any scale: as a method of a ruler it would ask for one.
pub fn ahead(h: u64, k: i64) -> i64
    requires { (h ≤ 65535) × Within 46 k }
    ensures { result ≡ ahead_of h k }
{
    signed::floor_div(h as i64 * (1024 + k), 1024)
}

// What a ruler measures.
impl Ruler {
    // The limit behind. A whole row is told by the remainder, since an origin may be negative.
    pub fn behind(self) -> i64
        ensures { result ≡ behind_of self }
    {
        let part = if signed::rem_euclid(self.origin, 32) == 0 {
            30
        } else {
            1022
        };
        -((self.h + part) as i64)
    }

    // The image row at which a strip starts, whole images counted.
    fn top_row(self, k: i64) -> i64
        requires { StripOf self k }
        ensures { (result ≡ pos self.image_rows *ℤ k +ℤ whole_rows self.origin) × Within 47 result }
    {
        self.image_rows as i64 * k + measures::whole_rows(ThirtySeconds(self.origin))
    }

    // The whole images that strip k lies below the origin's.
    fn wholes(self, k: i64) -> i64
        requires { StripOf self k }
        ensures { result ≡ wholes_of self k }
    {
        let rows = self.top_row(k) + self.carry as i64 + above(self.first_rows, k, self.slice);
        signed::floor_div(rows, self.source_rows)
    }

    fn exact(self, earlier: u64) -> i64
        requires { earlier ≤ 2 ^ 31 }
        ensures { (result ≡ pos (32 * (self.start + 32 * self.carry) + self.h * earlier)) × Within 48 result }
    {
        (32 * (self.start + 32 * self.carry) + self.h * earlier) as i64
    }

    fn distance(self, k: i64, row: u64, ult: i64, earlier: u64) -> i64
        requires { (StripOf self k) × ((earlier ≤ 2 ^ 31) × ((row ≤ 65535) × Signed16 ult)) }
        ensures { result ≡ ahead_at self k row ult earlier 0 }
    {
        let near = sampled(row, ult) - self.exact(earlier);
        near + (256 * self.image_h) as i64 * self.wholes(k)
    }
}

// A rectangle, and the place after its strip.
#[tactic(auto, unfolding(plan::specs::Demand::aheads))]
fn rect_taken(r: Ruler, p: Place, uly: u64, lry: u64, ult: i64, row: u64) -> Taken
    requires { (SoundPlace r p) × RectIn lry ult row }
    ensures { RectIs r p uly lry ult row result }
{
    let s = next_strip(r, p).ok_or(Over)?;
    let lines = lry.saturating_sub(uly) / 4;
    let distance = r.distance(s.k, row, ult, s.earlier);
    let begun = Begun {
        line: s.earlier,
        strip: s.k,
        distance,
    };
    Ok(Some((begun, drawn(r, s, lines))))
}

#[tactic(auto, unfolding(plan::specs::Demand::aheads))]
pub fn taken(r: Ruler, p: Place, e: Entry) -> Taken
    requires { (SoundPlace r p) × Small e }
    ensures { TakenIs r p e result }
{
    match e {
        Entry::Rect {
            uly,
            lry,
            ult,
            row,
            ..
        } => rect_taken(r, p, uly, lry, ult, row),
        Entry::Image { .. } | Entry::Tile { .. } | Entry::Size { .. } | Entry::Load { .. } => Ok(
            None,
        ),
    }
}
