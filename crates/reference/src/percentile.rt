// The 95th percentile of an hour's spreads (section 12.8.2): their values by side, and the one of the rank.
ghost use Rattle.std.specs.Prelude.{◌≡◌, ◌<◌, ◌≤◌, length};
ghost use Rattle.rank.specs.Orders.{lower_spread};
ghost use Rattle.rank.specs.Ranks.{Picked};
ghost use Rattle.reference.specs.Percentile.{PercentileRank, percentile_rank};
ghost use Rattle.reference.specs.Spreads.{spread_of, dated_spread, spreads_to, PriceOf, reference_price, Referenced};

use crate::hours::Hours;
use market::bounds::Rate;
use market::words::Side;
use rank::pick::pick;
use rank::spread::DatedSpread;

/// The hours of three months, one of them with a day of 25 hours.
pub const HOURS_OF_HISTORY: usize = 2209;

/// The least whole number r with 20 × r ≥ 19 × n.
fn percentile_rank(n: usize) -> usize
    requires { n ≤ 2209 }
    ensures least { PercentileRank n result }
    ensures value { result ≡ percentile_rank n }
{
    (19 * n).div_ceil(20)
}

/// The average less 12 × the day-ahead price, or for demand its negative.
fn spread_of(side: Side, average: i32, day_ahead: i32) -> i64
    ensures { result ≡ spread_of side average day_ahead }
{
    let supply = i64::from(average) - 12 * i64::from(day_ahead);
    match side {
        Side::Supply => supply,
        Side::Demand => -supply,
    }
}

impl Hours<'_> {
    /// The spread of the hour of this index.
    fn dated_spread(&self, side: Side, index: usize) -> DatedSpread
        requires { index < length self.now.averages.now }
        ensures { result ≡ dated_spread side self.now.averages.now self.now.day_ahead.now index }
    {
        DatedSpread {
            value: spread_of(side, self.averages[index], self.day_ahead[index]),
            // Hours are counted from 1 in 64 bits; an index has no `From` to them.
            hour: index as i64 + 1,
        }
    }

    /// Writes the spreads of so many hours as there are places, from the first hour on.
    fn write_spreads(&self, side: Side, spreads: &mut [DatedSpread])
        requires { length spreads.old ≤ length self.now.averages.now }
        ensures { spreads.new ≡ spreads_to side self.now.averages.now self.now.day_ahead.now (length spreads.old) }
    {
        // One index for both lists: over a `zip` with them it was tried, and the proof of the loop did not close.
        for (index, spread) in spreads.iter_mut().enumerate() {
            *spread = self.dated_spread(side, index);
        }
    }

    /// The spread of the percentile's rank among those of the hours, which it writes into as many places.
    fn percentile(&self, side: Side, spreads: &mut [DatedSpread]) -> Option<DatedSpread>
        requires { length spreads.old ≡ length self.now.averages.now }
        ensures least { PercentileRank (length self.now.averages.now) (percentile_rank (length self.now.averages.now)) }
        ensures picked { Picked lower_spread (spreads_to side self.now.averages.now self.now.day_ahead.now (length self.now.averages.now))
            (percentile_rank (length self.now.averages.now)) result }
    {
        self.write_spreads(side, spreads);
        pick(spreads, percentile_rank(self.averages.len()))
    }

    /// The price that the hours give a side.
    fn price(&self, side: Side) -> Rate
        ensures of_its_rank { PriceOf side self.now.averages.now self.now.day_ahead.now result }
        ensures value { result ≡ reference_price side self.now.averages.now self.now.day_ahead.now }
    {
        // Places for the most hours, of which the first so many are used: a policy is given no memory.
        let mut spreads = [DatedSpread { value: 0, hour: 0 }; HOURS_OF_HISTORY];
        match self.percentile(side, &mut spreads[..self.averages.len()]) {
            Some(spread) => spread.value,
            None => unreachable!(),
        }
    }
}

/// The reference price of a location and side, from an average and a day-ahead price for each of 1 to 2,209 hours.
pub fn reference_price(side: Side, averages: &[i32], day_ahead: &[i32]) -> Option<Rate>
    ensures { Referenced side averages.now day_ahead.now result }
{
    let hours = Hours::new(averages, day_ahead)?;
    Some(hours.price(side))
}
