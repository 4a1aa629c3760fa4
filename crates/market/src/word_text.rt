// Words of the market as text: a side in its own word, and a letter that no case has.
ghost use Rattle.std.specs.Prelude.{Some};
ghost use Rattle.market.specs.Texts.{side_text, unknown_letter_text};

use crate::words::{Side, UnknownLetter};
use std::error::Error;
use std::fmt;

impl fmt::Display for Side {
    ghost output = { λ s. Some (side_text s) };

    fn fmt<W: fmt::Write>(&self, f: &mut fmt::Formatter<W>) -> fmt::Result {
        f.write_str(match self {
            Side::Supply => "supply",
            Side::Demand => "demand",
        })
    }
}

impl fmt::Display for UnknownLetter {
    ghost output = { λ e. Some (unknown_letter_text e) };

    fn fmt<W: fmt::Write>(&self, f: &mut fmt::Formatter<W>) -> fmt::Result {
        let letter = self.0;
        write!(f, "no case has the letter {letter}")
    }
}

impl Error for UnknownLetter {}
