// What measures the plan of a request: from the checks and the set-up of a scaled plan.
ghost use Rattle.std.specs.Prelude.{◌≡◌, ◌+◌, ◌≤◌, ◌^◌, pos, neg_ℤ, ◌-ℤ◌, ◌≤ℤ◌};
ghost use Rattle.measures.specs.Measure.{quarters, thirty_seconds, sampled_by};
ghost use Rattle.measures.specs.Range.{Below};
ghost use Rattle.checks.specs.Known.{PassedScaled};
ghost use Rattle.request.specs.Host.{with_bytes};
ghost use Rattle.ruler.specs.Drifts.{SoundPlace, place_of, apt_in, ruler_from, MadeIn, FoundScaled, FoundIs};

use crate::types::{Place, Ruler};
use measures::{Quarters, Scale, ThirtySeconds};
use object::{Background, ObjBg};
use request::Request;
use setup::SetUp;

// Where the frame starts in the image: the clipped top is sampled.
fn start_at(y: ThirtySeconds, top: Quarters, h: Scale) -> u64
    requires { (Below 16 y.0) × ((Below 16 top.0) × (h.0 ≤ 65535)) }
    ensures { result ≡ thirty_seconds y + sampled_by (quarters top) h.0 }
{
    measures::thirty_seconds(y) + measures::thirty_seconds(measures::sampled_by(top, h))
}

// The rows of the first strip above the start.
fn rows_above(image_rows: u64, slice_rows: i64) -> i64
    requires { (image_rows ≤ 512) × ((neg_ℤ (pos (2 ^ 27)) ≤ℤ slice_rows) × (slice_rows ≤ℤ pos 512)) }
    ensures { result ≡ pos image_rows -ℤ slice_rows }
{
    image_rows as i64 - slice_rows
}

fn made(bg: ObjBg, parts: SetUp) -> Ruler
    requires { MadeIn bg parts.clip parts.start parts.scaled parts.first }
    ensures { result ≡ ruler_from bg parts.clip parts.start parts.scaled parts.first }
{
    let z = parts.scaled;
    let first = parts.first;
    let image_h = measures::quarters(bg.image_h);
    let first_rows = rows_above(z.image_rows, first.slice_rows);
    let count = signed::positive(first.count);
    let lines = measures::texels(parts.clip.height);
    let start = start_at(bg.image_y, parts.clip.top, z.scale_h);
    Ruler {
        h: z.scale_h.0,
        image_h,
        source_rows: z.source_rows,
        image_rows: z.image_rows,
        frame_rows: z.frame_rows,
        first_rows,
        carry: parts.start.carry,
        slice: first.slice,
        count,
        lines,
        start,
        origin: bg.image_y_orig.0,
    }
}

fn scaled_found(bg: ObjBg, q: Request) -> Option<Ruler>
    requires { PassedScaled bg q.scissor }
    ensures { FoundScaled bg q.scissor q.mode q.address result }
{
    let parts = setup::set_up(bg, q).ok()?;
    Some(made(bg, parts))
}

// Nothing measures a plan that has no scaled rectangle to come.
pub fn ruler_of(object: &[u8], q: Request) -> Option<Ruler>
    ensures { FoundIs (with_bytes object.now q) result }
{
    let Background::Scaled(bg) = checks::checked(object, q.opcode, q.scissor).ok()? else {
        return None;
    };
    scaled_found(bg, q)
}

// Before the first pass.
pub fn place_of(r: Ruler) -> Place
    ensures { (result ≡ place_of r) × SoundPlace r result }
{
    Place {
        fuel: 65 * r.lines,
        k: r.slice,
        left: r.lines,
        count: r.count,
        earlier: 0,
    }
}

// Demand 3's conditions on a scaled plan.
pub fn apt(r: Ruler) -> bool
    ensures { result ≡ apt_in r }
{
    r.image_h % 4 == 0 && r.origin <= r.start as i64
}
