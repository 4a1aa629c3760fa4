// All worked figures of the rules, collected on one contract.
#![tactic(auto)]

ghost use Rattle.figures.specs.Figures.{AllFigures};

/// The figures of reference prices and of the day hold, by the definitions.
pub fn all_figures_hold()
    ensures { AllFigures }
{
    reference::figures::figures_hold();
    rules::figures::figures_hold();
}
