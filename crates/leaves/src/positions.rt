// How much of a location's limit an entity may stand with.
ghost use Rattle.std.specs.Prelude.{◌≡◌, ◌+ℤ◌};
ghost use Rattle.rules.specs.Position.{percent_of, is_within};

use market::bounds::Quantity;
use market::words::Class;

const FIRST_STEP: i64 = 8; // the last month of the least percentages

const SECOND_STEP: i64 = 12; // the last month of the next; nodes have no limit after it

const THIRD_STEP: i64 = 16; // the last month in which interties have one

/// The percentage of a location's limit in a month; none where positions are not limited.
pub fn percent_of(class: Class, month: i64) -> Option<i64>
    ensures { result ≡ percent_of class month }
{
    match class {
        Class::Node | Class::Aggregate => match month {
            ..=FIRST_STEP => Some(10),
            ..=SECOND_STEP => Some(50),
            _ => None,
        },
        Class::LoadPoint | Class::Hub => None,
        Class::Intertie => match month {
            ..=FIRST_STEP => Some(5),
            ..=SECOND_STEP => Some(25),
            ..=THIRD_STEP => Some(50),
            _ => None,
        },
    }
}

/// Whether a position with one more bid of this highest point is within the limit: both sides add, nothing is netted.
pub fn is_within(
    percentage: Option<i64>,
    limit: Quantity,
    position: Quantity,
    highest: Quantity,
) -> bool
    ensures { result ≡ is_within percentage limit (position +ℤ highest) }
{
    // A match: by `is_none_or` and a closure it was tried, and the proof of its products did not close.
    match percentage {
        None => true,
        Some(percent) => {
            let stands = (i128::from(position) + i128::from(highest)) * 100;
            stands <= i128::from(percent) * i128::from(limit)
        }
    }
}
