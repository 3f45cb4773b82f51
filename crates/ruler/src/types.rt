// What measures a scaled plan, and what it gives.
use std::marker::Model;

// What no rectangle changes: the numbers of demand 3, from the request alone. Every ruler is sound: whoever makes one has to prove it, so that a measure asks nothing of its caller.
#[derive(Clone, Copy)]
pub struct Ruler {
    pub h: u64,
    pub image_h: u64,
    pub source_rows: u64,
    pub image_rows: u64,
    pub frame_rows: u64,
    pub first_rows: i64,
    pub carry: u64,
    pub slice: i64,
    pub count: u64,
    pub lines: u64,
    pub start: u64,
    pub origin: i64,
}

impl Model for Ruler {
    ghost use Rattle.plan.specs.Demand.{Drift};

    ghost Value = { Drift };

    ghost use Rattle.ruler.specs.Ruler.{drift_in, ruler_in, SoundRuler};

    ghost view = { drift_in };

    ghost invariant = { λ r. SoundRuler (drift_in r) };

    ghost inverse = { ruler_in };
}

// Before a pass: the passes left at the most, the strip's number, the frame's lines left, the strip's in 1,024ths, and the lines of earlier rectangles.
// No sum of a pass overflows at any place. How a place stands to a ruler is no fact of a place alone, and stays a clause (`SoundPlace`).
#[derive(Clone, Copy)]
pub struct Place {
    pub fuel: u64,
    pub k: i64,
    pub left: u64,
    pub count: u64,
    pub earlier: u64,
}

impl Model for Place {
    ghost use Rattle.ruler.specs.Place.{Place as Numbers, place_at, InPlace};

    ghost Value = { Numbers };

    ghost view = { λ p. place_at p.fuel p.k p.left p.count p.earlier };

    ghost invariant = { λ p. InPlace (place_at p.fuel p.k p.left p.count p.earlier) };

    ghost inverse = { λ n. record {
      fuel = n.fuel;
      k = n.k;
      left = n.left;
      count = n.count;
      earlier = n.earlier;
    } };
}

// Where a rectangle begins: its first line, its strip, and its distance. The limit ahead of its strip does not overflow, and its distance is a word.
#[derive(Clone, Copy)]
pub struct Begun {
    pub line: u64,
    pub strip: i64,
    pub distance: i64,
}

impl Model for Begun {
    ghost use Rattle.std.specs.Int.{w64};
    ghost use Rattle.std.proofs.Common.{SFits};
    ghost use Rattle.measures.specs.Range.{Within};
    ghost use Rattle.plan.specs.Demand.{Begun as Numbers};

    ghost Value = { Numbers };

    ghost view = { λ b. record { line = b.line; strip = b.strip; distance = b.distance } };

    ghost invariant = { λ b. (Within 46 b.strip) × SFits w64 b.distance };

    ghost inverse = { λ n. record { line = n.line; strip = n.strip; distance = n.distance } };
}

// No strip is left for the rectangle.
#[derive(Clone, Copy)]
pub struct Over;

// What an entry is: a rectangle that is measured, with the place after its strip, or no rectangle.
pub type Taken = Result<Option<(Begun, Place)>, Over>;
