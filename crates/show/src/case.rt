// The planner of a case.
ghost use Rattle.show.specs.Case.{CaseIs};

use checks::COPY;
use object::{OBJECT_BYTES, Scissor};
use planner::Planner;
use request::{Request, from_bytes};
use starts::fresh;

// Any bytes. A case that is too short has just an end to come, which is that of an object without bytes: its opcode is one that `checks` passes, so that the length is what it refuses. Written out: no other request is all zeros.
pub fn case_planner(bytes: &[u8]) -> Planner
    ensures { CaseIs bytes.now result }
{
    match from_bytes(bytes) {
        Some(q) => fresh(&bytes[..OBJECT_BYTES], q),
        None => {
            let scissor = Scissor {
                ulx: 0,
                uly: 0,
                lrx: 0,
                lry: 0,
            };
            let nothing = Request {
                opcode: COPY,
                scissor,
                mode: 0,
                address: 0,
            };
            fresh(&bytes[..0], nothing)
        }
    }
}
