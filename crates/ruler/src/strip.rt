// The strips that draw, by the passes of a scaled plan: those without a line are passed over.
ghost use Rattle.std.specs.Prelude.{◌≤◌, ◌≡◌};
ghost use Rattle.ruler.specs.Drifts.{NextIs, idle_from, drawn_from};

use crate::types::{Place, Ruler};

// After a pass without a line.
fn idle(r: Ruler, p: Place) -> Place
    requires { (p.count ≤ 1023) × (1 ≤ p.fuel) }
    ensures { result ≡ idle_from r.frame_rows p }
{
    Place {
        fuel: p.fuel - 1,
        k: p.k + 1,
        count: p.count + r.frame_rows,
        ..p
    }
}

// The strip that draws next.
pub(crate) fn next_strip(r: Ruler, start: Place) -> Option<Place>
    ensures { NextIs r.frame_rows start result }
{
    let mut p = start;
    if p.left == 0 {
        return None;
    }
    while p.fuel > 0 {
        if p.count >= 1024 {
            return Some(p);
        }
        p = idle(r, p);
    }
    None
}

// After a strip that draws.
pub(crate) fn drawn(r: Ruler, p: Place, lines: u64) -> Place
    requires { (lines ≤ 16383) × (1 ≤ p.fuel) }
    ensures { result ≡ drawn_from r.frame_rows p lines }
{
    Place {
        fuel: p.fuel - 1,
        k: p.k + 1,
        left: p.left.saturating_sub(p.count / 1024),
        count: p.count % 1024 + r.frame_rows,
        earlier: p.earlier + lines,
    }
}
