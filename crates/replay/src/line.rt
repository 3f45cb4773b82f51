// The line of a record: numbers in decimal, digests as 16 hexadecimal digits.
use crate::outcome::Outcome;
use crate::record::Replayed;
use crate::steps::Digests;
use plan::End;
use std::fmt;

// The four numbers of an end.
#[derive(Clone, Copy)]
struct Numbers(End);

impl fmt::Display for Numbers {
    fn fmt<W: fmt::Write>(&self, f: &mut fmt::Formatter<W>) -> fmt::Result {
        let [verdict, entries, rectangles, words] = giving::end_numbers(self.0);
        write!(f, "{verdict} {entries} {rectangles} {words}")
    }
}

impl fmt::Display for Digests {
    fn fmt<W: fmt::Write>(&self, f: &mut fmt::Formatter<W>) -> fmt::Result {
        let answers = self.answers;
        let bank = self.bank;
        write!(f, "{answers:016x} {bank:016x}")
    }
}

impl fmt::Display for Outcome {
    fn fmt<W: fmt::Write>(&self, f: &mut fmt::Formatter<W>) -> fmt::Result {
        let end = Numbers(self.end);
        let entries = self.entries;
        let bank = self.bank;
        write!(f, "{end} {entries:016x} {bank:016x}")
    }
}

impl fmt::Display for Replayed {
    fn fmt<W: fmt::Write>(&self, f: &mut fmt::Formatter<W>) -> fmt::Result {
        let run = self.run;
        let end = Numbers(self.end);
        let steps = self.steps;
        write!(f, "{run} {end} {steps}")?;
        match self.mixed {
            Some(mixed) => write!(f, " {mixed}"),
            None => Ok(()),
        }
    }
}
