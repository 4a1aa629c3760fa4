// Numbers in a text, parted by white space.
#![tactic(auto)]

ghost use Rattle.std.specs.Prelude.{◌≡◌, Some};
ghost use Rattle.numerals.specs.declared.BadText.TheVariants.{NoMemory};
ghost use Rattle.numerals.specs.Numbers.{NumbersRead};
ghost use Rattle.numerals.specs.Texts.{bad_text};

use std::alloc::{AllocFailed, Global};
use std::error::Error;
use std::fmt;

/// Why a text gave no list of numbers.
#[derive(Clone, Copy, Debug, PartialEq, Eq)]
pub enum BadText {
    /// The word of this index, counted from 0, is not a number of 32 bits.
    NotANumber(usize),
    NoMemory,
}

impl fmt::Display for BadText {
    ghost output = { λ e. Some (bad_text e) };

    fn fmt<W: fmt::Write>(&self, f: &mut fmt::Formatter<W>) -> fmt::Result {
        match self {
            BadText::NotANumber(word) => write!(f, "word {word} is not a number"),
            BadText::NoMemory => f.write_str("no memory"),
        }
    }
}

impl Error for BadText {}

impl<T: Drop> From<AllocFailed<T>> for BadText {
    ghost from_gives = { λ _ e. e ≡ NoMemory };

    fn from(_failed: AllocFailed<T>) -> BadText {
        BadText::NoMemory
    }
}

/// The numbers of a text, in the order in which they stand.
pub fn read_numbers(heap: Global, text: &str) -> Result<Vec<i32>, BadText>
    ensures { NumbersRead text.now result }
{
    let mut numbers = Vec::new(heap);
    for word in text.split_whitespace() {
        let number = word
            .parse()
            .map_err(|_| BadText::NotANumber(numbers.len()))?;
        numbers.push(number)?;
    }
    Ok(numbers)
}
