// Laws on charges, credit, cash and rounding.
ghost use Rattle.laws.specs.Every.{EveryRun};
ghost use Rattle.laws.specs.Money.{RatedByMeaning, RoundingLaws, CashKept, Covered, NeverOverdrawn};

/// After every run, holds and bids are charged by the policy's meaning.
pub fn rated_runs()
    ensures { EveryRun RatedByMeaning }
{}

/// Cents are the nearest, halves away from zero.
pub fn rounding_laws()
    ensures { RoundingLaws }
{}

/// After every run, cash and clawbacks come to what was paid, and the balancing account to the clawbacks.
pub fn cash_runs()
    ensures { EveryRun CashKept }
{}

/// After every run, each account's available credit covers its priced and unpaid awards.
pub fn covered_runs()
    ensures { EveryRun Covered }
{}

/// While bidding is open, no account is overdrawn.
pub fn credit_runs()
    ensures { EveryRun NeverOverdrawn }
{}
