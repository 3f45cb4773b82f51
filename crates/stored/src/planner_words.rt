// A planner in 39 words and out of them.
ghost use Rattle.std.specs.Prelude.{◌≡◌, true};
ghost use Rattle.planner.specs.Planner.{planner_at};
ghost use Rattle.stored.specs.Stored.{over_words, StoredIs, LoadedIs, verdict_from, counts_from, course_from, planner_from, sound_test};

use checks::number;
use copy::Due;
use object::Verdict;
use planner::{Course, Planner};
use stored_fields::{STATE, State, counts_sound};
use words::Counts;

#[tactic(auto, unfolding(crate::specs::Stored::over_words))]
fn over_words(v: Verdict, n: Counts) -> State
    ensures { result ≡ over_words v n }
{
    let mut words: State = [0; STATE];
    words[1] = n.entries;
    words[2] = n.rectangles;
    words[3] = n.words;
    words[4] = n.line;
    words[5] = number(v);
    words
}

// The words of a course and its counts, whether or not they make a sound planner: as a value of `Planner`, whose type has only sound ones, they would be fewer. By its name and not `From`, as `load` is not `TryFrom`: the planner is another crate's type and its words are an array, so Rust lets this crate implement neither.
pub fn stored(course: Course, counts: Counts) -> State
    ensures { StoredIs (planner_at course counts) result }
{
    match course {
        Course::Copy(stage, place) => stored_copy::copy_words(stage, place, counts),
        Course::Scaled(stage, place) => stored_scaled::scaled_words(stage, place, counts),
        Course::Over(v) => over_words(v, counts),
    }
}

// Total: a number above 10 reads as the last, and the comparison in `load` refuses it. The error of a TryFrom would refuse the same words a second time.
fn verdict_from(k: u64) -> Verdict
    ensures { result ≡ verdict_from k }
{
    match k {
        0 => Verdict::Finished,
        1 => Verdict::Opcode,
        2 => Verdict::Short,
        3 => Verdict::Scissor,
        4 => Verdict::Object,
        5 => Verdict::Copy,
        6 => Verdict::Slices,
        7 => Verdict::TooBig,
        8 => Verdict::Piece,
        9 => Verdict::Address,
        _ => Verdict::Full,
    }
}

fn counts_from(words: &State) -> Counts
    ensures { result ≡ counts_from words.now }
{
    Counts {
        entries: words[1],
        rectangles: words[2],
        words: words[3],
        line: words[4],
    }
}

// The course of any words; which of them are a planner's is tested apart.
#[tactic(auto, unfolding(crate::specs::Stored::course_from))]
fn course_from(words: &State) -> Course
    ensures { result ≡ course_from words.now }
{
    match words[0] {
        0 => Course::Over(verdict_from(words[5])),
        1 => Course::Copy(
            copy::Stage::Strip(Due::Image),
            copy::copy_start(stored_copy::copy_from(words)),
        ),
        k @ 2..=7 => Course::Copy(stored_copy::stage_from(k), stored_copy::place_from(words)),
        k => Course::Scaled(
            stored_scaled::stage_from(k),
            stored_scaled::place_from(words),
        ),
    }
}

// The planner of words that were tested.
#[tactic(auto, using(crate::proofs::Laws::test_sound))]
fn planner_from(words: &State) -> Planner
    requires { sound_test words.now ≡ true }
    ensures { result ≡ planner_from words.now }
{
    Planner {
        course: course_from(words),
        counts: counts_from(words),
    }
}

// A start has a texture image and five entries for each of 1,024 by 1,024 cells to come, at the most.
const ALL: u64 = 5 * 1024 * 1024 + 1;

// Whether the planner of the words is sound, tested before it is made: what a step asks of its numbers, and few enough entries.
#[tactic(auto, using(stored_copy::proofs::Laws::place_yes, stored_scaled::proofs::Laws::few_lines), unfolding(crate::specs::Stored::sound_test))]
fn sound(words: &State) -> bool
    ensures { result ≡ sound_test words.now }
{
    let n = counts_from(words);
    match words[0] {
        0 => counts_sound(n, 0),
        1 => stored_copy::copy_sound(words) && counts_sound(n, ALL),
        k @ 2..=7 => {
            stored_copy::place_sound(words)
                && counts_sound(
                    n,
                    stored_copy::copy_left(
                        stored_copy::stage_from(k),
                        stored_copy::place_from(words),
                    ),
                )
        }
        k => {
            let stage = stored_scaled::stage_from(k);
            stored_scaled::stage_sound(stage, words)
                && counts_sound(n, stored_scaled::scaled_left(stage, words))
        }
    }
}

// The planner of any words; nothing where they are no sound planner's. No other words are a planner's than those that `stored` gives: what the test leaves open, such as a word that the course does not use, must be as there.
#[tactic(auto, using(crate::proofs::Laws::loaded, crate::proofs::Laws::no_words))]
pub fn load(words: State) -> Option<Planner>
    ensures { LoadedIs words result }
{
    if !sound(&words) {
        return None;
    }
    let p = planner_from(&words);
    (words == stored(p.course, p.counts)).then_some(p)
}
