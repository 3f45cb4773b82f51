// The passes: those without a line are passed over, and one that draws begins.
ghost use Rattle.std.specs.Prelude.{◌≡◌, ◌+◌, ◌*◌, ◌≤◌, ◌<◌, ◌^◌, pos, ◌≤ℤ◌};
ghost use Rattle.signed.specs.Diff.{up};
ghost use Rattle.measures.specs.Range.{Within};
ghost use Rattle.plan.specs.Out.{plan_out};
ghost use Rattle.plan.specs.Sound.{SoundScaled};
ghost use Rattle.plan.specs.Scaled.{draw_of, next_pass, after_draw};
ghost use Rattle.loads.specs.Coming.{passes_of};
ghost use Rattle.loads.specs.Sound.{SoundWalk, SoundRect, Runs, Begins, cut_lines, cut_rows, due_lines};

use loads::{Begun, Piece, Place, advance, forward, less, plus, times};
use measures::ThirtySeconds;
use object::Verdict;
use plan::{Scaled, Source, Walk};

// The whole lines that the count has come to.
fn lines_due(count: i64) -> u64
    requires { count ≤ℤ pos (2 ^ 31) }
    ensures { (result ≡ due_lines count) × (result ≤ 2 ^ 21) }
{
    signed::positive(measures::signed_whole(count))
}

// The walk before the next pass.
fn next_walk(z: Scaled, y: u64, left: i64, count: i64, source: Source) -> Walk
    requires sound_scaled { SoundScaled z }
    requires within { Within 61 count }
    ensures { result ≡ next_pass z y left count source }
{
    Walk {
        frame_y: y,
        frame_remain: left,
        count: plus(count, z.frame_rows),
        slice_rows: z.image_rows as i64,
        t: ThirtySeconds(0),
        source,
    }
}

// The lines of a pass, fewer at the frame's end.
fn cut_lines(draw: u64, left: i64) -> u64
    requires { (draw ≤ 2 ^ 21) × Within 40 left }
    ensures { result ≡ cut_lines draw left }
{
    if left < 0 {
        signed::positive(plus(left, draw))
    } else {
        draw
    }
}

// The rows of a pass, fewer at the frame's end.
fn cut_rows(z: Scaled, rows: i64, left: i64) -> i64
    requires sound_scaled { SoundScaled z }
    requires within { (Within 43 rows) × Within 40 left }
    ensures { result ≡ cut_rows z rows left }
{
    if left < 0 {
        let over = measures::signed_whole(times(left, z.scale_h.0));
        plus(rows + over, 1).min(z.image_rows as i64)
    } else {
        rows
    }
}

// A pass that draws, with nothing of its load given.
fn draw(w: Walk, p: Place) -> Begun
    requires runs { Runs p.scaled w }
    requires bound { 1 ≤ draw_of w }
    ensures { Begins (plan_out (passes_of p.scaled w)) (14 * up w.frame_remain) result }
{
    let draw = lines_due(w.count);
    let left = less(w.frame_remain, draw);
    let q = Place {
        walk: w,
        rows: cut_rows(p.scaled, w.slice_rows, left),
        lines: cut_lines(draw, left),
        ..p
    };
    Ok((Piece::Start, q))
}

// The next pass that draws, from a walk with lines left. Only the first strip may have fewer rows than the others, or less than none.
fn running(walk: Walk, p: Place) -> Begun
    requires { Runs p.scaled walk }
    ensures { Begins (plan_out (passes_of p.scaled walk)) (14 * up walk.frame_remain) result }
{
    if lines_due(walk.count) != 0 {
        return draw(walk, p);
    }
    let next = advance(p.scaled, walk.source, walk.slice_rows).ok_or(Verdict::Address)?;
    let mut w = next_walk(p.scaled, walk.frame_y, walk.frame_remain, walk.count, next);
    while lines_due(w.count) == 0 {
        let next = forward(p.scaled, w.source).ok_or(Verdict::Address)?;
        w = next_walk(p.scaled, w.frame_y, w.frame_remain, w.count, next);
    }
    draw(w, p)
}

// The next pass that draws, or the end.
pub fn next_pass(w: Walk, p: Place) -> Begun
    requires sound_scaled { SoundScaled p.scaled }
    requires sound_walk { pos 1 ≤ℤ w.frame_remain → SoundWalk w }
    ensures { Begins (plan_out (passes_of p.scaled w)) (14 * up w.frame_remain) result }
{
    if w.frame_remain <= 0 {
        return Err(Verdict::Finished);
    }
    running(w, p)
}

// The walk after a pass that has drawn.
pub fn drawn(p: Place) -> Walk
    requires { SoundRect p }
    ensures { result ≡ after_draw p.scaled p.walk (draw_of p.walk) p.lines p.next }
{
    let w = p.walk;
    let draw = lines_due(w.count);
    let left = less(w.frame_remain, draw);
    let count = masks::signed_low10(w.count) as i64;
    next_walk(p.scaled, w.frame_y + p.lines, left, count, p.next)
}
