// Posting a price, and quoting it.
ghost use Rattle.std.specs.Prelude.{◌≡◌, true, Some};
ghost use Rattle.reference.specs.Fair.{in_reference};
ghost use Rattle.reference.specs.Posted.{by_side, KeepsTheOther, posted_price, posted_priced, Posting, EmptyTable};

use super::{Entry, PLACES, Posted};
use crate::policy::Policy;
use lists::counted::index_from_one;
use market::bounds::{HIGHEST_REFERENCE, Number, Rate};
use market::fault::{Cause, Fault, PolicyFault};
use market::words::{Layer, Side};

/// Whether a price is within the bounds of a reference price.
fn is_reference(price: Rate) -> bool
    ensures { result ≡ in_reference price }
{
    (-HIGHEST_REFERENCE..=HIGHEST_REFERENCE).contains(&price)
}

impl Entry {
    /// The price of a side, where it was posted.
    fn price(self, side: Side) -> Option<Rate>
        ensures { result ≡ by_side self.supply self.demand side }
    {
        match side {
            Side::Supply => self.supply,
            Side::Demand => self.demand,
        }
    }

    /// Posts a price for a side, in place of any before.
    fn post(&mut self, side: Side, price: Rate)
        requires { in_reference price ≡ true }
        ensures posted { by_side self.new.supply self.new.demand side ≡ Some price }
        ensures kept { KeepsTheOther side self.old self.new }
    {
        match side {
            Side::Supply => self.supply = Some(price),
            Side::Demand => self.demand = Some(price),
        }
    }
}

impl Posted {
    /// An empty table.
    pub fn new() -> Posted
        ensures { EmptyTable result }
    {
        let empty = Entry {
            supply: None,
            demand: None,
        };
        Posted {
            entries: [empty; PLACES],
        }
    }

    /// Posts a price, in place of any before; refused 1 with the location where that or the price is out of bounds.
    pub fn post(&mut self, location: Number, side: Side, price: Rate) -> Result<(), Fault>
        ensures { Posting self.old self.new location side price result }
    {
        let refused = Fault::BadArgument {
            layer: Layer::Policy,
            place: location,
        };
        let Some(i) = index_from_one(location, PLACES) else {
            return Err(refused);
        };
        if !is_reference(price) {
            return Err(refused);
        }
        self.entries[i].post(side, price);
        Ok(())
    }
}

impl Policy for Posted {
    ghost meaning = { λ p. posted_price p.entries };

    ghost bounded = { λ p. posted_priced p.entries };

    fn quote(&mut self, location: Number, side: Side) -> Result<Rate, PolicyFault> {
        let Some(i) = index_from_one(location, PLACES) else {
            return Err(PolicyFault {
                cause: Cause::Outside,
                location,
            });
        };
        self.entries[i].price(side).ok_or(PolicyFault {
            cause: Cause::Missing,
            location,
        })
    }
}
