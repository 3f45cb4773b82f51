// A plan's text, in pieces that the caller's bytes have room for.
ghost use Rattle.planner.specs.Coming.{coming};
ghost use Rattle.show.specs.Chunk.{ChunkIs};

use lines::{end_line, entry_line};
use plan::End;
use planner::Planner;

// The most bytes that a line has.
const LINE: usize = 128;

// What one call leaves: the planner with the rest to come, which after the end is the same end again, how many bytes are written, and the end once its line is among them.
#[derive(Clone, Copy)]
pub struct Chunk {
    pub planner: Planner,
    pub count: usize,
    pub end: Option<End>,
}

// The lines of the next answers, as long as there is room for any line; with 128 bytes or more there is at least one.
pub fn next_text(start: Planner, out: &mut [u8]) -> Chunk
    ensures { ChunkIs (coming start) out.old out.new result }
{
    let mut planner = start;
    let mut count: usize = 0;
    while out.len() - count >= LINE {
        let s = planner.step();
        planner = s.planner;
        match s.given {
            Ok(entry) => {
                count = entry_line(out, count, entry);
            }
            Err(stop) => {
                return Chunk {
                    planner,
                    count: end_line(out, count, stop.end),
                    end: Some(stop.end),
                };
            }
        }
    }
    Chunk {
        planner,
        count,
        end: None,
    }
}
