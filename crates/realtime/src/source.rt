// A source of real-time averages, held to its meaning alone.
ghost use Rattle.std.specs.Prelude.{◌≡◌, ℤ, Result};
ghost use Rattle.market.specs.declared.fault.SourceFault.{SourceFault};
ghost use Rattle.realtime.specs.Sources.{Averaged};

use market::bounds::{Hour, Number, Rate};
use market::fault::SourceFault;

// A trait beside the policy's, which has the same shape: this one is asked by hour and bounded by 12,000,000, that one by
// side and 24,000,000; one trait over both would name neither, and a policy could be passed where a source is meant.

/// Gives, for each location and hour, an average in twelfths or a fault. What is beside that meaning may change.
pub trait Source {
    ghost meaning: { Self → ℤ → ℤ → Result ℤ SourceFault };

    ghost bounded: { (s : Self) (l h : ℤ) → Averaged (meaning s l h) };

    // Location and hour are two parameters: a struct of both would be made at each question to be taken apart at once.
    /// The average of a location and hour, or why there is none.
    fn average(&mut self, location: Number, hour: Hour) -> Result<Rate, SourceFault>
        ensures answers_by_meaning { result ≡ meaning self.old location hour }
        ensures keeps_the_meaning { meaning self.new ≡ meaning self.old };
}
