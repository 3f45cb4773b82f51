// Sums and differences of one measure, for numbers of at most 40 bits: what a set-up adds up has far fewer. Each of the two types has its own: a trait cannot give operators to all its types, and the customer names the measures as tuple structs, not as one generic type.
ghost use Rattle.std.specs.Prelude.{◌≡◌, ◌+ℤ◌, ◌-ℤ◌};
ghost use Rattle.measures.specs.Measure.{in_quarters, in_thirty_seconds};
ghost use Rattle.measures.specs.Range.{Within};

use crate::types::{Quarters, ThirtySeconds};
use std::ops::{Add, Sub};

impl Add for Quarters {
    type Output = Quarters;

    ghost can_add = { λ a b. (Within 40 a.0) × Within 40 b.0 };

    ghost add_gives = { λ a b r. r ≡ in_quarters (a.0 +ℤ b.0) };

    fn add(self, rhs: Quarters) -> Quarters {
        Quarters(self.0 + rhs.0)
    }
}

impl Sub for Quarters {
    type Output = Quarters;

    ghost can_sub = { λ a b. (Within 40 a.0) × Within 40 b.0 };

    ghost sub_gives = { λ a b r. r ≡ in_quarters (a.0 -ℤ b.0) };

    fn sub(self, rhs: Quarters) -> Quarters {
        Quarters(self.0 - rhs.0)
    }
}

impl Add for ThirtySeconds {
    type Output = ThirtySeconds;

    ghost can_add = { λ a b. (Within 40 a.0) × Within 40 b.0 };

    ghost add_gives = { λ a b r. r ≡ in_thirty_seconds (a.0 +ℤ b.0) };

    fn add(self, rhs: ThirtySeconds) -> ThirtySeconds {
        ThirtySeconds(self.0 + rhs.0)
    }
}

impl Sub for ThirtySeconds {
    type Output = ThirtySeconds;

    ghost can_sub = { λ a b. (Within 40 a.0) × Within 40 b.0 };

    ghost sub_gives = { λ a b r. r ≡ in_thirty_seconds (a.0 -ℤ b.0) };

    fn sub(self, rhs: ThirtySeconds) -> ThirtySeconds {
        ThirtySeconds(self.0 - rhs.0)
    }
}
