// The lines that the day prints, with their bytes.
ghost use Rattle.std.specs.Prelude.{◌≡◌, IfOk, string_bytes};
ghost use Rattle.day.specs.Lines.{quote_text, average_text, refusal_text, bad_word_text};

use market::bounds::{Hour, Number, Rate};
use market::fault::{Fault, PolicyFault, SourceFault};
use market::words::Side;
use numerals::BadText;
use std::alloc::{AllocError, Global};

// The first two differ in their words alone: one function for both would take the words, and be no plainer.

/// The reference price of a location and side, in twelfths of a cent, or why there is none.
pub fn quote_line(
    heap: Global,
    location: Number,
    side: Side,
    answer: Result<Rate, PolicyFault>,
) -> Result<String, AllocError>
    ensures { IfOk result (λ s. string_bytes s ≡ quote_text location side answer) }
{
    match answer {
        Ok(price) => format!(in heap; "location {location} {side}: {price}"),
        Err(fault) => format!(in heap; "location {location} {side}: no price, {fault}"),
    }
}

/// The real-time average of a location and hour, in twelfths of a cent, or why there is none.
pub fn average_line(
    heap: Global,
    location: Number,
    hour: Hour,
    answer: Result<Rate, SourceFault>,
) -> Result<String, AllocError>
    ensures { IfOk result (λ s. string_bytes s ≡ average_text location hour answer) }
{
    match answer {
        Ok(average) => format!(in heap; "location {location} hour {hour}: {average}"),
        Err(fault) => format!(in heap; "location {location} hour {hour}: no average, {fault}"),
    }
}

/// Which list was refused, and how.
pub fn refusal_line(heap: Global, file: &str, fault: Fault) -> Result<String, AllocError>
    ensures { IfOk result (λ s. string_bytes s ≡ refusal_text file.now fault) }
{
    format!(in heap; "{file}: refused {fault}")
}

/// Which word of a file is not a number, counted from 0.
pub fn bad_word_line(heap: Global, file: &str, word: usize) -> Result<String, AllocError>
    ensures { IfOk result (λ s. string_bytes s ≡ bad_word_text file.now word) }
{
    let fault = BadText::NotANumber(word);
    format!(in heap; "{file}: {fault}")
}
