// Prints the plan of the case on standard input. `answer` is all of it over any reader and writer, whose bytes its contract names.
// What the system's own streams give and take no contract can say; tools/check-bgplan runs them.
#![tactic(auto)]

ghost use Rattle.std.specs.Prelude.{◌≡◌, ◌≤◌, IfOk, OnOk, IfSome, length, take};
ghost use Rattle.std.specs.Io.KnownBytes.{Appends};
ghost use Rattle.planner.specs.Coming.{coming};
ghost use Rattle.show.specs.Joined.{coming_text};
ghost use Rattle.bgplan.specs.Answer.{AnswerIs};

mod failure;

use failure::Failure;
use planner::Planner;
use request::CASE_BYTES;
use std::io;
use std::io::{Read, Write};
use std::process::ExitCode;

// Bytes of the input until there is no room for more or it ends. A read that fails is no end of it.
fn read<R: Read>(input: &mut R, bytes: &mut [u8]) -> io::Result<usize>
    ensures room { IfOk result (λ n. n ≤ length bytes.new) }
    ensures first { IfSome (R.remaining input.old) (λ bs. IfOk result (λ n. take n bytes.new ≡ take (length bytes.new) bs)) }
{
    let mut n = 0;
    while n < bytes.len() {
        let more = input.read(&mut bytes[n..])?;
        if more == 0 {
            break;
        }
        n += more;
    }
    Ok(n)
}

// The text of all that a planner has to come, in large pieces. No other function writes, and this one writes nothing more after a write that fails.
fn print<W: Write>(output: &mut W, start: Planner) -> io::Result<()>
    ensures { OnOk result (Appends (W.contents output.old) (W.contents output.new) (coming_text (coming start))) }
{
    let mut piece = [0u8; 262144];
    let mut planner = start;
    loop {
        let chunk = show::next_text(planner, &mut piece);
        output.write_all(&piece[..chunk.count])?;
        if chunk.end.is_some() {
            return Ok(());
        }
        planner = chunk.planner;
    }
}

// The text of the case's plan.
fn answer<R: Read, W: Write>(input: &mut R, output: &mut W) -> Result<(), Failure>
    ensures { AnswerIs (R.remaining input.old) (W.contents output.old) (W.contents output.new) result }
{
    let mut bytes = [0u8; CASE_BYTES];
    let n = read(input, &mut bytes).map_err(Failure::Input)?;
    print(output, show::case_planner(&bytes[..n])).map_err(Failure::Output)
}

fn main(rt: HostRuntime) -> ExitCode {
    match answer(&mut rt.stdin(), &mut rt.stdout()) {
        Ok(()) => ExitCode::SUCCESS,
        Err(failure) => {
            let _ = eprintln!(rt; "bgplan: {failure}");
            ExitCode::FAILURE
        }
    }
}
