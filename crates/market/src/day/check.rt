// A day is made by its check alone, and read by its two methods.
ghost use Rattle.std.specs.Prelude.{◌≡◌};
ghost use Rattle.market.specs.Days.{DayChecked};

use super::Day;
use crate::bounds::{Hour, LAST_MONTH, LONGEST_DAY, SHORTEST_DAY};
use crate::fault::Fault;
use crate::words::Layer;

impl Day {
    /// A day of these hours in this month, or refusal 1 with the position of the first bad argument.
    pub fn check(hours: i64, month: i64) -> Result<Day, Fault>
        ensures { DayChecked hours month result }
    {
        if !(SHORTEST_DAY..=LONGEST_DAY).contains(&hours) {
            return Err(Fault::BadArgument {
                layer: Layer::Book,
                place: 1,
            });
        }
        if !(0..=LAST_MONTH).contains(&month) {
            return Err(Fault::BadArgument {
                layer: Layer::Book,
                place: 2,
            });
        }
        Ok(Day { hours, month })
    }

    /// How many hours the day has.
    pub fn hours(&self) -> Hour
        ensures { result ≡ self.now.hours }
    {
        self.hours
    }

    /// The number of the day's month.
    pub fn month(&self) -> i64
        ensures { result ≡ self.now.month }
    {
        self.month
    }
}
