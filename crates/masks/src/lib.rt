// Masks and shifts, which are remainders and divisions that round down.
#![tactic(auto)]

ghost use Rattle.std.specs.Prelude.{◌≡◌, ◌%◌, ◌^◌};
ghost use Rattle.signed.specs.Floor.{floor_div, modulo};
ghost use Rattle.signed.specs.Cast.{clear_low};

// Each mask stands as in the Rust, and as the customer names it: a const parameter would put (1 << BITS) - 1 in its place.

// Masks that keep low bits are remainders.

pub fn low5(x: u64) -> u64
    ensures { result ≡ x % 2 ^ 5 }
{
    x & 0x1f
}

pub fn signed_low10(x: i64) -> u64
    ensures { result ≡ modulo x (2 ^ 10) }
{
    (x & 0x3ff) as u64
}

// Masks that clear low bits take the remainder away; shifts to the right round down.

pub fn clear2(x: i64) -> i64
    ensures { result ≡ clear_low x (2 ^ 2) }
{
    x & !3
}

pub fn clear10(x: i64) -> i64
    ensures { result ≡ clear_low x (2 ^ 10) }
{
    x & !0x3ff
}

// Whole rows of a number of thirty-seconds: the low bits cleared, then divided.
pub fn rows5(x: i64) -> i64
    ensures { result ≡ floor_div x (2 ^ 5) }
{
    (x & !0x1f) / 32
}

pub fn shift10(x: i64) -> i64
    ensures { result ≡ floor_div x (2 ^ 10) }
{
    x >> 10
}
