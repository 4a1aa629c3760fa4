// The figures of the rules, collected on one contract.
ghost use Rattle.rules.specs.Figures.{Figures};

/// The figures of the rules hold, by the definitions.
pub fn figures_hold()
    ensures { Figures }
{}
