// Refusals as text: a layer's letter, a number, a place; and faults below the book. They are errors of Rust's kind.
ghost use Rattle.std.specs.Prelude.{Some};
ghost use Rattle.std.specs.Fmt.{DisplaysOnOk};
ghost use Rattle.market.specs.Texts.{cause_at, fault_text, policy_fault_text, source_fault_text};

use crate::bounds::Number;
use crate::fault::{Cause, Fault, PolicyFault, SourceFault};
use std::error::Error;
use std::fmt;

impl fmt::Display for Fault {
    ghost output = { λ f. Some (fault_text f) };

    fn fmt<W: fmt::Write>(&self, f: &mut fmt::Formatter<W>) -> fmt::Result {
        let layer = char::from(self.layer());
        let number = self.number();
        let place = self.place();
        write!(f, "{layer} {number} {place}")
    }
}

/// Writes a cause and a location, as both faults below the book read.
fn write_cause<W: fmt::Write>(
    f: &mut fmt::Formatter<W>,
    cause: Cause,
    location: Number,
) -> fmt::Result
    ensures { DisplaysOnOk W.write_str_gives f.old result (Some (cause_at cause location)) f.new }
{
    let cause = cause.number();
    write!(f, "cause {cause} at location {location}")
}

impl fmt::Display for PolicyFault {
    ghost output = { λ f. Some (policy_fault_text f) };

    fn fmt<W: fmt::Write>(&self, f: &mut fmt::Formatter<W>) -> fmt::Result {
        write_cause(f, self.cause, self.location)
    }
}

impl fmt::Display for SourceFault {
    ghost output = { λ f. Some (source_fault_text f) };

    fn fmt<W: fmt::Write>(&self, f: &mut fmt::Formatter<W>) -> fmt::Result {
        write_cause(f, self.cause, self.location)
    }
}

impl Error for Fault {}

impl Error for PolicyFault {}

impl Error for SourceFault {}
