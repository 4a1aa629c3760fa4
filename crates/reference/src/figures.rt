// The worked figures of reference prices.
ghost use Rattle.reference.specs.Figures.{Figures};

/// The worked figures hold of the definitions.
pub fn figures_hold()
    ensures { Figures }
{}
