// Hours are made of two lists that pair.
ghost use Rattle.std.specs.Prelude.{◌≡◌, IfSome, IfNone};
ghost use Rattle.reference.specs.Spreads.{HasHours};

use super::Hours;
use crate::percentile::HOURS_OF_HISTORY;

impl<'a> Hours<'a> {
    /// The hours of an average and a day-ahead price each, where there are 1 to 2,209.
    pub(crate) fn new(averages: &'a [i32], day_ahead: &'a [i32]) -> Option<Hours<'a>>
        ensures some { IfSome result (λ h. (h.averages.now ≡ averages.now) × (h.day_ahead.now ≡ day_ahead.now)) }
        ensures none { IfNone result (HasHours averages.now day_ahead.now → ⊥) }
    {
        let hours = averages.len();
        if hours == 0 || hours > HOURS_OF_HISTORY || day_ahead.len() != hours {
            return None;
        }
        Some(Hours {
            averages,
            day_ahead,
        })
    }
}
