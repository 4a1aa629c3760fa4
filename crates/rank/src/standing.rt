// Standings of accounts, in the order of the ranking.
ghost use Rattle.std.specs.Prelude.{◌≡◌};
ghost use Rattle.std.proofs.Common.{rules};
ghost use Rattle.std.specs.Cmp.{partial_order_from_own_ties};
ghost use Rattle.std.specs.Cmp.Rules.{comparing};
ghost use Rattle.std.specs.Ordering.{as_partial_cmp};
ghost use Rattle.rank.specs.Orders.{standing_cmp, higher_standing};
ghost use Rattle.rank.specs.Laws.{standing_order};

use crate::order::Order;
use std::cmp::Ordering;

/// What an account is ranked by.
#[derive(Clone, Copy, Debug, PartialEq, Eq)]
pub struct Standing {
    pub cash: i64,
    pub available: i64,
    pub number: i64,
}

// Not derived: more cash and more credit go first, and `Reverse` in public fields would ask callers to wrap them.
impl Ord for Standing {
    ghost cmp = { standing_cmp };

    ghost total = { Prim.search (comparing, rules) };

    ghost matches_partial_cmp = { Prim.search (comparing, rules) };

    ghost matches_eq = { Prim.search (comparing, rules) };

    fn cmp(&self, other: &Standing) -> Ordering {
        other
            .cash
            .cmp(&self.cash)
            .then(other.available.cmp(&self.available))
            .then(self.number.cmp(&other.number))
    }
}

impl PartialOrd for Standing {
    ghost partial_cmp = { as_partial_cmp standing_cmp };

    ghost laws = { partial_order_from_own_ties (Prim.search (comparing, rules) depth 7) (Prim.search (comparing, rules)) };

    fn partial_cmp(&self, other: &Standing) -> Option<Ordering> {
        Some(self.cmp(other))
    }
}

impl Order for Standing {
    ghost strict = { standing_order };
}

impl Standing {
    /// Whether this standing goes before the other.
    pub fn precedes(&self, other: &Standing) -> bool
        ensures { result ≡ higher_standing self.now other.now }
    {
        self < other
    }
}
