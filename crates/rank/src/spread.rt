// Dated spreads, in the order of reference prices.
ghost use Rattle.std.specs.Prelude.{◌≡◌};
ghost use Rattle.rank.specs.Orders.{lower_spread};
ghost use Rattle.rank.specs.Laws.{spread_order};

use crate::order::Order;

/// The spread of an hour: the lower value goes first, and of one value the lower hour.
#[derive(Clone, Copy, Debug, PartialEq, Eq, PartialOrd, Ord)]
pub struct DatedSpread {
    pub value: i64,
    pub hour: i64,
}

impl Order for DatedSpread {
    ghost strict = { spread_order };
}

impl DatedSpread {
    /// Whether this spread goes before the other.
    pub fn precedes(&self, other: &DatedSpread) -> bool
        ensures { result ≡ lower_spread self.now other.now }
    {
        self < other
    }
}
