// Laws on awards and amounts.
ghost use Rattle.laws.specs.Every.{EveryRun};
ghost use Rattle.laws.specs.Awarding.{AwardLaw, AwardsWithin, ClearLaw, AmountLaw};

/// An award is the end of the last segment that the day-ahead price meets.
pub fn award_law()
    ensures { AwardLaw }
{}

/// After every run, an award's quantity is from 0 to its bid's highest point.
pub fn within_runs()
    ensures { EveryRun AwardsWithin }
{}

/// After every run, a clear awards each bid of its hour by the last segment that is met, and ends those without one.
pub fn clear_runs()
    ensures { EveryRun ClearLaw }
{}

/// After every run, the amount of each priced or paid award is the one that its hour's prices gave.
pub fn amount_runs()
    ensures { AmountLaw }
{}
