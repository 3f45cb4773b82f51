// One column, over blanks: a number's digits from the right, and its sign.
ghost use Rattle.std.specs.Prelude.{◌≡◌, ◌+◌, ◌-◌, ◌%◌, ◌≤◌, length, replicate};
ghost use Rattle.lines.specs.Text.{space, is_negative, magnitude_of, cell};
ghost use Rattle.lines.specs.Lines.{with_text, Blank, DigitsIs, PutIs};

// Columns of this width hold addresses and lengths, which are never negative. A column's width says its kind, as the text's definition has it: a kind beside each width would be a second list to agree with the first.
pub(crate) const WIDE: u8 = 21;

// A place is passed with all of the caller's bytes, since each promise says what every byte holds.

// Blanks from one place to another: a line gets its blanks at once, so that a column writes nothing but its number.
#[tactic(auto, unfolding(crate::specs::Lines::with_text))]
pub(crate) fn blank(out: &mut [u8], at: usize, end: usize)
    requires { (at ≤ end) × (end ≤ length out.old) }
    ensures { out.new ≡ with_text out.old at (replicate (end - at) space) }
{
    out[at..end].fill(b' ');
}

// In the other columns a word from 2^63 on stands for a negative number.
fn is_negative(width: u8, x: u64) -> bool
    ensures { result ≡ is_negative width x }
{
    width < WIDE && x.cast_signed().is_negative()
}

fn magnitude(width: u8, x: u64) -> u64
    ensures { result ≡ magnitude_of width x }
{
    if is_negative(width, x) {
        x.wrapping_neg()
    } else {
        x
    }
}

fn digit(n: u64) -> u8
    ensures { result ≡ 48 + n % 10 }
{
    b'0' + (n % 10) as u8
}

// A number's digits before a place, as many as there is room for; where the first stands.
fn digits(out: &mut [u8], at: usize, end: usize, x: u64) -> usize
    requires { (at ≤ end) × (end ≤ length out.old) }
    ensures { DigitsIs out.old at end x out.new result }
{
    let mut n = x;
    for i in (at..end).rev() {
        out[i] = digit(n);
        if n < 10 {
            return i;
        }
        n /= 10;
    }
    at
}

// A word in `width` places that are blank; the place after them.
pub(crate) fn put(out: &mut [u8], at: usize, width: u8, x: u64) -> usize
    requires { Blank out.old at width }
    ensures { PutIs out.old at (cell width x) out.new result }
{
    let end = at + usize::from(width);
    let first = digits(out, at, end, magnitude(width, x));
    if is_negative(width, x) && at < first {
        out[first - 1] = b'-';
    }
    end
}
