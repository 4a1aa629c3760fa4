// The price of a location and side, from the spreads of its hours.
ghost use Rattle.std.specs.Prelude.{◌≡◌, ◌+◌, ◌*◌, ◌<◌, ◌≤◌, length, take, drop};
ghost use Rattle.reference.specs.Histories.{history_price};
ghost use Rattle.reference.specs.HistoryBounds.{history_priced};

use super::History;
use crate::percentile::reference_price;
use crate::policy::Policy;
use lists::counted::index_from_one;
use market::bounds::{Number, Rate};
use market::fault::{Cause, PolicyFault};
use market::words::Side;

impl<'a> History<'a> {
    /// The numbers of a location, by its index, among those of all.
    fn of_location(&self, numbers: &'a [i32], index: usize) -> &'a [i32]
        requires among { index < self.now.sizes.rows }
        requires whole { length numbers.now ≡ self.now.sizes.rows * self.now.sizes.columns }
        ensures { result.now ≡ take self.now.sizes.columns (drop (index * self.now.sizes.columns) numbers.now) }
    {
        // Cut by its ends: pieces of one size, as `chunks_exact` gives, may not have the size 0, and a history may have no hour.
        let hours = usize::from(self.sizes.columns);
        let first = index * hours;
        &numbers[first..first + hours]
    }
}

impl<'a> Policy for History<'a> {
    ghost meaning = { λ h. history_price h.sizes.rows h.sizes.columns h.averages.now h.day_ahead.now };

    ghost bounded = { λ h. history_priced h.sizes.rows h.sizes.columns h.averages.now h.day_ahead.now h.averages_bounded h.day_ahead_bounded };

    fn quote(&mut self, location: Number, side: Side) -> Result<Rate, PolicyFault> {
        let Some(index) = index_from_one(location, usize::from(self.sizes.rows)) else {
            return Err(PolicyFault {
                cause: Cause::Outside,
                location,
            });
        };
        let averages = self.of_location(self.averages, index);
        let day_ahead = self.of_location(self.day_ahead, index);
        reference_price(side, averages, day_ahead).ok_or(PolicyFault {
            cause: Cause::Missing,
            location,
        })
    }
}
