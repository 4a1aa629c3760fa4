// Laws on what stands.
ghost use Rattle.laws.specs.Every.{EveryRun};
ghost use Rattle.laws.specs.Standing.{Orderly, Sized, NumberedOnce, NumbersInTurn, EachOnce};

/// After every run, a closed book has no holds and an open one only booked bids.
pub fn orderly_runs()
    ensures { EveryRun Orderly }
{}

/// After every run, no table has more entries than places.
pub fn sized_runs()
    ensures { EveryRun Sized }
{}

/// After every run, numbers have been given once and rise.
pub fn numbered_runs()
    ensures { EveryRun NumberedOnce }
{}

/// In every run, accounts, locations, holds and bids are each numbered 1, 2, 3 and on.
pub fn numbers_in_turn()
    ensures { NumbersInTurn }
{}

/// After every run, an account has one bid a side, location and hour, and one adjustment a constraint and period.
pub fn once_runs()
    ensures { EveryRun EachOnce }
{}
