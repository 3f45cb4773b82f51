// Why there are no answers, or not all of them. bgplan has an enum of its own: each names its program's streams, and one for both would name streams that a program does not have.
use std::{fmt, io};

#[derive(Clone, Copy)]
pub enum Failure {
    Bank(io::Error),
    Records(io::Error),
    Output(io::Error),
}

impl fmt::Display for Failure {
    fn fmt<W: fmt::Write>(&self, f: &mut fmt::Formatter<W>) -> fmt::Result {
        match self {
            Failure::Bank(e) => write!(f, "bank: {e}"),
            Failure::Records(e) => write!(f, "records: {e}"),
            Failure::Output(e) => write!(f, "standard output: {e}"),
        }
    }
}
