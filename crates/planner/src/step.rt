// One step: the entry that comes next, with the counts after it, or the end; and the same with a bank.
ghost use Rattle.std.specs.Prelude.{◌≡◌};
ghost use Rattle.plan.specs.Sound.{EntryIn};
ghost use Rattle.words.specs.Counts.{Countable};
ghost use Rattle.planner.specs.Planner.{Sound};
ghost use Rattle.planner.specs.Coming.{StepGives, StepIs, give_of, stop_of};

use crate::types::{Course, Planner, Step, Stepped, Stop};
use copy::CopyEnd;
use loads::Refused;
use object::Verdict;
use plan::Entry;
use tile::Bank;
use words::Counts;

fn give(course: Course, n: Counts, entry: Entry) -> Step
    requires given { (Countable n) × EntryIn entry }
    requires sound { Sound (give_of course n entry).planner }
    ensures { result ≡ give_of course n entry }
{
    let counts = words::counted(n, entry);
    let planner = Planner { course, counts };
    let given = Ok(entry);
    Step { planner, given }
}

// The end; where a load is refused, its tile's size is set before it.
fn stop(n: Counts, verdict: Verdict, size: Option<Entry>) -> Step
    requires { Sound (stop_of n verdict size).planner }
    ensures { result ≡ stop_of n verdict size }
{
    let planner = Planner {
        course: Course::Over(verdict),
        counts: n,
    };
    let end = words::end_of(n, verdict);
    let given = Err(Stop { size, end });
    Step { planner, given }
}

fn copy_step(stage: copy::Stage, place: copy::Place, n: Counts) -> Step
    requires { Sound (record { course = Course.Copy stage place; counts = n }) }
    ensures { StepGives (record { course = Course.Copy stage place; counts = n }) result }
{
    match copy::copy_next(stage, place) {
        Ok((entry, s, p)) => give(Course::Copy(s, p), n, entry),
        Err(CopyEnd::TooBig) => stop(n, Verdict::TooBig, None),
        Err(CopyEnd::Overflow(size)) => stop(n, Verdict::Address, Some(size)),
        Err(CopyEnd::Finished) => stop(n, Verdict::Finished, None),
    }
}

fn scaled_step(stage: loads::Stage, place: loads::Place, n: Counts) -> Step
    requires { Sound (record { course = Course.Scaled stage place; counts = n }) }
    ensures { StepGives (record { course = Course.Scaled stage place; counts = n }) result }
{
    match passes::scaled_next(stage, place) {
        // One arm for each answer of a pass: a course for both, or a match within the arm, would be made in memory at every step.
        Ok((entry, Ok((stage, place)))) => give(Course::Scaled(stage, place), n, entry),
        Ok((entry, Err(v))) => give(Course::Over(v), n, entry),
        Err(Refused(size)) => stop(n, Verdict::Address, Some(size)),
    }
}

impl Planner {
    // The planner, with one entry or the end; after the end the same end.
    pub fn step(self) -> Step
        ensures { StepGives self result }
    {
        match self.course {
            Course::Copy(stage, place) => copy_step(stage, place, self.counts),
            Course::Scaled(stage, place) => scaled_step(stage, place, self.counts),
            Course::Over(v) => stop(self.counts, v, None),
        }
    }

    // A step that takes the caller's bank along; after the end the bank is left alone.
    pub fn step_with(self, bank: Bank) -> Stepped
        ensures { StepIs self bank result }
    {
        let Step { planner, given } = self.step();
        match given {
            Ok(entry) => Stepped {
                planner,
                bank: words::bank_after(bank, entry),
                answer: Ok(entry),
            },
            Err(stop) => Stepped {
                planner,
                bank: stop.size.map_or(bank, |size| words::bank_after(bank, size)),
                answer: Err(stop.end),
            },
        }
    }
}
