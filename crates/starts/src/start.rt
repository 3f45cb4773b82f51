// The planner of a request: the checks, the set-up of its mode, and where its plan starts.
ghost use Rattle.checks.specs.Known.{PassedCopy, PassedScaled};
ghost use Rattle.std.specs.Prelude.{◌≡◌, ◌≤◌};
ghost use Rattle.words.specs.Counts.{zero_counts};
ghost use Rattle.planner.specs.Planner.{planner_at, SoundCourse, left_course};
ghost use Rattle.plan.specs.Whole.{plan_of};
ghost use Rattle.planner.specs.Coming.{Fresh, Starts, StartsCopy, StartsScaled, request_of};
ghost use Rattle.starts.specs.Start.{course_or};

use copy::{Due, Stage};
use object::{Background, ObjBg, Verdict};
use planner::{Course, Planner};
use request::Request;
use words::Counts;

fn copy_course(bg: ObjBg, q: Request) -> Result<Course, Verdict>
    requires { PassedCopy bg q.scissor }
    ensures { StartsCopy bg q.scissor q.address (course_or result) }
{
    let c = strips::copy_of(bg, q.scissor, q.address);
    if strips::copy_empty(c) {
        return Err(Verdict::Finished);
    }
    Ok(Course::Copy(Stage::Strip(Due::Image), copy::copy_start(c)))
}

fn scaled_course(bg: ObjBg, q: Request) -> Result<Course, Verdict>
    requires { PassedScaled bg q.scissor }
    ensures { StartsScaled bg q.scissor q.mode q.address (course_or result) }
{
    let parts = setup::set_up(bg, q)?;
    let (stage, place) = passes::scaled_start(parts.scaled, parts.clip, parts.first)?;
    Ok(Course::Scaled(stage, place))
}

// Where the plan of a request starts, or the verdict that it ends at before any entry.
fn first_course(object: &[u8], q: Request) -> Result<Course, Verdict>
    ensures { Starts (plan_of (request_of object.now q.opcode q.scissor q.mode q.address)) (course_or result) }
{
    match checks::checked(object, q.opcode, q.scissor)? {
        Background::Copy(bg) => copy_course(bg, q),
        Background::Scaled(bg) => scaled_course(bg, q),
    }
}

// A planner at the start of a course: nothing is given yet. Written out in full, as are the starts of both walks: a default would name the same numbers in another place.
fn started(course: Course) -> Planner
    requires { (SoundCourse course) × (left_course course ≤ 6000000) }
    ensures { result ≡ planner_at course zero_counts }
{
    let counts = Counts {
        entries: 0,
        rectangles: 0,
        words: 0,
        line: 0,
    };
    Planner { course, counts }
}

// The planner of any request; one that is refused ends at its first step.
pub fn fresh(object: &[u8], q: Request) -> Planner
    ensures { Fresh object.now q.opcode q.scissor q.mode q.address result }
{
    started(first_course(object, q).unwrap_or_else(Course::Over))
}
