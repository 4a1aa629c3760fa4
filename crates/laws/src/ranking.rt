// The law of ranks.
ghost use Rattle.laws.specs.Every.{EveryRun};
ghost use Rattle.laws.specs.Ranking.{RankedOnce};

/// After every run, each rank from 1 to the accounts has exactly one account.
pub fn ranked_runs()
    ensures { EveryRun RankedOnce }
{}
