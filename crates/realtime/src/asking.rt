// A question to any source, with the book's fault where there is no average.
ghost use Rattle.std.specs.Prelude.{◌≡◌};
ghost use Rattle.realtime.specs.Sources.{average_or_fault};

use crate::source::Source;
use market::bounds::{Hour, Number, Rate};
use market::fault::{Asked, Fault};

// The like of a policy's `price_or_refuse`, with another trait, key and refusal: what they share is the record of the place.

/// The average of a location and hour, or refusal 14 with the location and the source's fault whole.
pub fn average_or_fault<S: Source>(
    source: &mut S,
    location: Number,
    hour: Hour,
) -> Result<Rate, Fault>
    ensures answers_by_meaning { result ≡ average_or_fault location (S.meaning source.old location hour) }
    ensures keeps_the_meaning { S.meaning source.new ≡ S.meaning source.old }
{
    let asked = location;
    source
        .average(location, hour)
        .map_err(|fault| Fault::from(Asked { asked, fault }))
}
