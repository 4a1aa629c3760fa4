// The Trading Day that a book runs.
ghost use Rattle.std.specs.Prelude.{pos, ◌≤ℤ◌};

pub mod check;

use crate::bounds::Hour;

/// A Trading Day of 23, 24 or 25 hours, in a month counted from the one in which the provision took effect.
#[derive(Clone, Copy, Debug, PartialEq, Eq)]
pub struct Day {
    hours: Hour,
    month: i64,
    ghost hours_low: { pos 23 ≤ℤ hours },
    ghost hours_high: { hours ≤ℤ pos 25 },
    ghost month_low: { pos 0 ≤ℤ month },
    ghost month_high: { month ≤ℤ pos 600 },
}
