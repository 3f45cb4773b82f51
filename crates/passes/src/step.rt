// One step of a scaled plan: the entry that is due, and where the plan stands after it.
ghost use Rattle.std.specs.Prelude.{◌≡◌};
ghost use Rattle.plan.specs.Out.{plan_out};
ghost use Rattle.plan.specs.Sound.{SoundScaled, SoundFirst};
ghost use Rattle.plan.specs.Scaled.{scaled_plan};
ghost use Rattle.loads.specs.Coming.{due_entry, due_walk, due_stage, stage_of, turn_out, after_turn, coming_scaled};
ghost use Rattle.loads.specs.Sound.{ClipIn, SoundAt, left_at, left_turn, Reaches, Begins, Gave, loaded_out};

use loads::{
    Begun, Due, Part, Piece, Place, Reached, Refused, ScaledNext, Stage, Turn, after_part, less,
    moved_on, whole_part,
};
use object::Verdict;
use plan::{Clip, Entry, First, Scaled, Source, Walk};
use walks::{drawn, image, load, next_pass, rect, tile0, tile7};

// What is given before the next pass. It stands apart from `due_walk`, which is made only where the entry is not refused.
fn due_entry(due: Due, p: Place) -> Entry
    requires { SoundAt (due_stage due) p }
    ensures { result ≡ due_entry due p }
{
    match due {
        Due::Size => Entry::Size {
            index: 0,
            uls: 0,
            ult: 0,
            lrs: 0,
            lrt: 0,
        },
        Due::Rect => rect(p),
    }
}

// The walk before the next pass: after a rectangle, the one that its pass leaves.
fn due_walk(due: Due, p: Place) -> Walk
    requires { SoundAt (due_stage due) p }
    ensures { result ≡ due_walk due p }
{
    match due {
        Due::Size => p.walk,
        Due::Rect => drawn(p),
    }
}

// The entry of a turn. Only a load may be refused, and then nothing comes after it: so this stands apart from `begun`, which makes what comes.
fn turn_entry(turn: Turn, p: Place) -> Result<Entry, Refused>
    requires { SoundAt (stage_of turn) p }
    ensures { loaded_out result ≡ turn_out turn p }
{
    match turn {
        Turn::Load => load(p.scaled, p.part),
        Turn::Last => Ok(tile7(p.scaled, 0)),
        Turn::Pass(due) => Ok(due_entry(due, p)),
    }
}

// The pass after a turn's entry: the one that is under way, or the next.
fn begun(turn: Turn, p: Place) -> Begun
    requires { SoundAt (stage_of turn) p }
    ensures { Begins (after_turn turn p) (left_turn turn p) result }
{
    match turn {
        Turn::Load => Ok((p.piece, p)),
        Turn::Last => Ok((Piece::Rest, p)),
        Turn::Pass(due) => next_pass(due_walk(due, p), p),
    }
}

// What comes after a turn's entry: the one call of `after_part`, so that the compiler inlines it.
fn turned(turn: Turn, p: Place) -> Reached
    requires { SoundAt (stage_of turn) p }
    ensures { Reaches (after_turn turn p) (left_turn turn p) result }
{
    let (k, q) = begun(turn, p)?;
    after_part(k, q)
}

// The entry of a turn, and what comes after it unless its load is refused.
fn turn_step(turn: Turn, p: Place) -> ScaledNext
    requires { SoundAt (stage_of turn) p }
    ensures { Gave (coming_scaled (stage_of turn) p) (left_at (stage_of turn) p) result }
{
    let entry = turn_entry(turn, p)?;
    Ok((entry, turned(turn, p)))
}

// The load of a pass where no row wraps, and what comes after it unless it is refused.
fn whole_step(p: Place) -> ScaledNext
    requires { SoundAt Stage.WholeLoad p }
    ensures { Gave (coming_scaled Stage.WholeLoad p) (left_at Stage.WholeLoad p) result }
{
    let entry = load(p.scaled, whole_part(p))?;
    Ok((entry, moved_on(p)))
}

// What comes next of a scaled plan. The stages are data, and no closures: a host keeps a planner as words, and there is no heap. Those of a turn meet in one call of `turn_step`, so that the compiler inlines it.
pub fn scaled_next(stage: Stage, p: Place) -> ScaledNext
    requires { SoundAt stage p }
    ensures { Gave (coming_scaled stage p) (left_at stage p) result }
{
    let turn = match stage {
        Stage::First => {
            return Ok((tile7(p.scaled, 0), Ok((Stage::Second, p))));
        }
        Stage::Second => {
            return Ok((tile0(p.scaled), Ok((Stage::Size, p))));
        }
        Stage::Whole => {
            return Ok((
                image(p.scaled, p.walk.source.pointer),
                Ok((Stage::WholeLoad, p)),
            ));
        }
        Stage::WholeLoad => {
            return whole_step(p);
        }
        Stage::Tile => {
            return Ok((tile7(p.scaled, p.part.destination), Ok((Stage::Image, p))));
        }
        Stage::Image => {
            return Ok((image(p.scaled, p.part.pointer), Ok((Stage::Load, p))));
        }
        Stage::Load => Turn::Load,
        Stage::Last => Turn::Last,
        Stage::Size => Turn::Pass(Due::Size),
        Stage::Rect => Turn::Pass(Due::Rect),
    };
    turn_step(turn, p)
}

// Where a scaled plan starts: its first address sum may be refused. Written out in full: a default would name the same numbers in another place.
pub fn scaled_start(z: Scaled, c: Clip, f: First) -> Reached
    requires sound_scaled { SoundScaled z }
    requires sound_first { (SoundFirst z f) × ClipIn c }
    ensures { Reaches (plan_out (scaled_plan z c f)) 16384 result }
{
    let offset = z.stride * f.image_row + z.x_offset;
    let pointer = z.address.checked_add(offset).ok_or(Verdict::Address)?;
    let remain = less(z.source_rows as i64, f.image_row);
    let source = Source { pointer, remain };
    let walk = Walk {
        frame_y: measures::texels(c.y),
        frame_remain: measures::texels(c.height) as i64,
        count: f.count,
        slice_rows: f.slice_rows,
        t: f.t,
        source,
    };
    let part = Part {
        pointer: 0,
        rows: 0,
        destination: 0,
        width: 0,
    };
    let place = Place {
        scaled: z,
        walk,
        rows: 0,
        lines: 0,
        part,
        spare: 0,
        next: source,
        piece: Piece::Start,
    };
    Ok((Stage::First, place))
}
