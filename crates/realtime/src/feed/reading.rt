// How a feed answers: the cell of a location and hour, its mark, its prices and their average.
ghost use Rattle.std.specs.Prelude.{◌≡◌, ◌+◌, ◌*◌, ◌^◌, ◌<◌, ◌≤◌, length, take, drop, pos, ◌*ℤ◌, neg_ℤ, ◌≤ℤ◌};
ghost use Rattle.lists.specs.Lists.{num};
ghost use Rattle.realtime.specs.Bounds.{feed_averaged};
ghost use Rattle.realtime.specs.Feeds.{feed_meaning, summed, published, weight};

use super::{Feed, PUBLISHED};
use crate::source::Source;
use market::bounds::{Hour, Number, Rate};
use market::fault::{Cause, SourceFault};

const TWELFTHS: u8 = 12; // of an hour, each of five minutes

/// The sum of fewer than 256 prices.
fn sum_of(prices: &[i32]) -> i64
    requires { length prices.now < 2 ^ 8 }
    ensures value { result ≡ summed (num prices.now) (length prices.now) }
    ensures low { neg_ℤ (pos (2 ^ 40)) ≤ℤ result }
    ensures high { result ≤ℤ pos (2 ^ 40) }
{
    // A loop: as a signed `sum` over a chain it was tried, and the proof of its bound did not close.
    let mut sum = 0;
    for price in prices {
        sum += i64::from(*price);
    }
    sum
}

/// How many twelfths of an hour one of `per` prices stands for.
fn weight_of(per: u8) -> i64
    ensures { result ≡ pos (weight per) }
{
    i64::from(TWELFTHS.checked_div(per).unwrap_or(0))
}

/// A sum of prices in twelfths: each of `per` prices counts as often as it stands for a twelfth of an hour.
fn in_twelfths(sum: i64, per: u8) -> i64
    requires low { neg_ℤ (pos (2 ^ 40)) ≤ℤ sum }
    requires high { sum ≤ℤ pos (2 ^ 40) }
    ensures { result ≡ pos (weight per) *ℤ sum }
{
    weight_of(per) * sum
}

impl<const PER: u8> Feed<'_, PER> {
    /// Whether the mark of a cell says that it is published.
    fn is_published(&self, cell: usize) -> bool
        requires { cell < self.now.sizes.rows * self.now.sizes.columns }
        ensures { result ≡ published self.now.list.now cell }
    {
        self.list[2 + cell] == PUBLISHED
    }

    /// The prices of a cell, behind the marks of all cells.
    fn prices(&self, cell: usize) -> &[i32]
        requires { cell < self.now.sizes.rows * self.now.sizes.columns }
        ensures value { result.now ≡ take PER (drop (2 + self.now.sizes.rows * self.now.sizes.columns + cell * PER) self.now.list.now) }
        ensures len { length result.now ≡ PER }
    {
        // Cut by its ends: pieces of one size, as `chunks_exact` gives, may not have the size 0.
        let per = usize::from(PER);
        let first = 2 + self.sizes.cells() + cell * per;
        &self.list[first..first + per]
    }
}

impl<'a, const PER: u8> Source for Feed<'a, PER> {
    ghost meaning = { λ s. feed_meaning PER s.list.now s.sizes.rows s.sizes.columns };

    ghost bounded = { λ s. feed_averaged PER s.list.now s.sizes.rows s.sizes.columns s.priced };

    fn average(&mut self, location: Number, hour: Hour) -> Result<Rate, SourceFault> {
        let Some(cell) = self.sizes.cell(location, hour) else {
            return Err(SourceFault {
                cause: Cause::Outside,
                location,
            });
        };
        if !self.is_published(cell) {
            return Err(SourceFault {
                cause: Cause::Missing,
                location,
            });
        }
        Ok(in_twelfths(sum_of(self.prices(cell)), PER))
    }
}
