// The history policy: last year's prices of each location, hour by hour.
ghost use Rattle.std.specs.Prelude.{◌≡◌, ◌*◌, ◌≤◌, length};
ghost use Rattle.reference.specs.Years.{EachPrice, EachAverage};

pub mod check;
pub mod prices;

use lists::layout::Sizes;

/// Day-ahead prices and real-time averages of so many locations (rows) and hours (columns), location after location.
// Two slices and not one of pairs: both are parts of one list that is lent, and pairing would need a copy of it.
#[derive(Drop)]
pub struct History<'a> {
    sizes: Sizes,
    day_ahead: &'a [i32],
    averages: &'a [i32],
    ghost few_locations: { sizes.rows ≤ 64 },
    ghost few_hours: { sizes.columns ≤ 2209 },
    ghost day_ahead_whole: { length day_ahead.now ≡ sizes.rows * sizes.columns },
    ghost averages_whole: { length averages.now ≡ sizes.rows * sizes.columns },
    ghost day_ahead_bounded: { EachPrice day_ahead.now },
    ghost averages_bounded: { EachAverage averages.now },
}
