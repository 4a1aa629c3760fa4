// What an order has to be for the pick.
ghost use Rattle.rank.specs.Ranks.{before, StrictOrder};

/// A total order that ties no two different elements, so that it is strict: nothing goes before itself, what goes before is
/// transitive, and of two different elements exactly one goes first.
pub trait Order: Ord {
    ghost strict: { StrictOrder (before Self.cmp) };
}
