// Laws on positions.
ghost use Rattle.laws.specs.Every.{EveryRun};
ghost use Rattle.laws.specs.Positions.{WithinPositions, NotNetted, PercentLaw};

/// After every run, no entity stands beyond its position limit.
pub fn position_runs()
    ensures { EveryRun WithinPositions }
{}

/// After every run, a position is both sides added: supply and demand do not net.
pub fn netted_runs()
    ensures { EveryRun NotNetted }
{}

/// The percentages of position limits, by class and month.
pub fn percent_law()
    ensures { PercentLaw }
{}
