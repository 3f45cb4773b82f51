// Runs a fixed list of records and prints of each what README.md says, to be compared with what the Rust answered.
#![tactic(auto)]

mod failure;
mod files;
mod line;
mod outcome;
mod record;
mod steps;

use failure::Failure;
use files::{bank_of, record_replayed};
use std::io::Read;
use std::process::ExitCode;
use std::rt::Files;
use std::{fs, io};

// A bank of 136 words.
fn bank(rt: &impl Files) -> io::Result<[u64; 136]> {
    let mut bytes = [0u8; 1088];
    fs::open(rt, "bank")?.read_exact(&mut bytes)?;
    Ok(bank_of(&bytes))
}

fn replay(rt: &(impl Files + Alloc + Print)) -> Result<(), Failure> {
    let bank = bank(rt).map_err(Failure::Bank)?;
    let records = fs::read(rt, "records").map_err(Failure::Records)?;
    for record in records.as_chunks::<64>().0 {
        rt.println(record_replayed(record, bank))
            .map_err(Failure::Output)?;
    }
    Ok(())
}

fn main(rt: HostRuntime) -> ExitCode {
    match replay(&rt) {
        Ok(()) => ExitCode::SUCCESS,
        Err(failure) => {
            let _ = eprintln!(rt; "replay: {failure}");
            ExitCode::FAILURE
        }
    }
}
