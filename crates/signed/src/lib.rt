// Signed numbers: division that rounds down, and casts that cut.
#![tactic(auto)]

ghost use Rattle.std.specs.Prelude.{◌≡◌, ◌-◌, ◌%◌, ◌/◌, ◌^◌, ◌<◌, ◌≤◌, max, pos, neg_ℤ, ◌≤ℤ◌};
ghost use Rattle.signed.specs.Diff.{up};
ghost use Rattle.signed.specs.Floor.{floor_div, modulo};
ghost use Rattle.signed.specs.Cast.{u16, i16, word};

// The Rust's `.max(0)`.
pub fn positive(z: i64) -> u64
    ensures { result ≡ up z }
{
    z.max(0) as u64
}

// The quotient rounded down, by a division that rounds toward zero: the customer names this form, so the library's `div_euclid` does not stand here.
pub fn floor_div(a: i64, b: u64) -> i64
    requires pos_bound { neg_ℤ (pos (2 ^ 62)) ≤ℤ a }
    requires le_b { (1 ≤ b) × (b ≤ 2 ^ 62) }
    ensures { result ≡ floor_div a b }
{
    let d = b as i64;
    if a < 0 { (a - (d - 1)) / d } else { a / d }
}

// The remainder that is not negative.
pub fn rem_euclid(a: i64, b: u64) -> u64
    requires { (1 ≤ b) × (b < 2 ^ 63) }
    ensures { result ≡ modulo a b }
{
    a.rem_euclid(b as i64) as u64
}

// The same for numbers that are mostly in range already: a division takes longer than the rest of a step.
pub fn wrapped(a: i64, b: u64) -> u64
    requires { (1 ≤ b) × (b < 2 ^ 63) }
    ensures { result ≡ modulo a b }
{
    if a < 0 {
        return rem_euclid(a, b);
    }
    let n = a as u64;
    if n < b { n } else { n % b }
}

// Casts that cut: `as u8`, `as u16`, `as i16`, and a word of a signed number. A cast must not lose bits, so a remainder cuts before it; a mask cuts what may be negative, whose remainder is negative too.

pub fn low8(x: u16) -> u8
    ensures { result ≡ x % 2 ^ 8 }
{
    (x % 256) as u8
}

pub fn low16(x: i64) -> u16
    ensures { result ≡ u16 x }
{
    (x & 0xffff) as u16
}

pub fn signed16(x: i64) -> i64
    ensures { result ≡ i16 x }
{
    i64::from(low16(x).cast_signed())
}

// Modulo 2^64, as the definitions have it: the library's cast promises the bits of a machine's word, and each caller would need the law from these to that.
pub fn word_of(x: i64) -> u64
    ensures { result ≡ word x }
{
    x.cast_unsigned()
}
