// A row count, which may be negative, with a number that may not: `a + n`, `a - n` and `a * n` over two types.
// Tried as operators: each place then has a cast, and that the number fits is asked there as it is here; in `moved_on` it needs an answer, where the clause of `times` needs none.
ghost use Rattle.std.specs.Prelude.{◌≡◌, ◌≤◌, ◌^◌, pos, ◌+ℤ◌, ◌-ℤ◌, ◌*ℤ◌};
ghost use Rattle.measures.specs.Range.{Within};

pub fn plus(a: i64, n: u64) -> i64
    requires { (Within 61 a) × (n ≤ 2 ^ 40) }
    ensures { result ≡ a +ℤ pos n }
{
    a + n as i64
}

pub fn less(a: i64, n: u64) -> i64
    requires { (Within 61 a) × (n ≤ 2 ^ 40) }
    ensures { result ≡ a -ℤ pos n }
{
    a - n as i64
}

// Bytes or words of rows.
pub fn times(a: i64, n: u64) -> i64
    requires { (Within 45 a) × (n ≤ 65535) }
    ensures { result ≡ a *ℤ pos n }
{
    a * n as i64
}
