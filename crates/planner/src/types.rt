// The planner by value, and what a step and a run answer.
use object::Verdict;
use plan::{Answer, End, Entry};
use std::marker::Model;
use tile::Bank;
use words::Counts;

// Where a plan stands: in a copy plan, in a scaled plan, or at its end. Data, and no closure: a host keeps it as words, and there is no heap.
#[derive(Clone, Copy)]
pub enum Course {
    Copy(copy::Stage, copy::Place),
    Scaled(loads::Stage, loads::Place),
    Over(Verdict),
}

// Every planner is sound: whoever makes one has to prove it, so that a step asks nothing of its caller.
#[derive(Clone, Copy)]
pub struct Planner {
    pub course: Course,
    pub counts: Counts,
}

impl Model for Planner {
    ghost use Rattle.planner.specs.Planner.{Planner as Numbers, planner_at, Sound};

    ghost Value = { Numbers };

    ghost view = { λ p. planner_at p.course p.counts };

    ghost invariant = { λ p. Sound (planner_at p.course p.counts) };

    ghost inverse = { λ n. record { course = n.course; counts = n.counts } };
}

// Why a step gives no entry: the end, and what a refused load has set before it, a tile's size that is no entry. In this order, since with the end first a run took some hundredths longer.
#[derive(Clone, Copy)]
pub struct Stop {
    pub size: Option<Entry>,
    pub end: End,
}

// What a step gives: an entry, or why there is none.
pub type Given = Result<Entry, Stop>;

#[derive(Clone, Copy)]
pub struct Step {
    pub planner: Planner,
    pub given: Given,
}

// A step that takes the caller's bank along.
#[derive(Clone, Copy)]
pub struct Stepped {
    pub planner: Planner,
    pub bank: Bank,
    pub answer: Answer,
}
