// The hours of a location: an average and a day-ahead price for each.
ghost use Rattle.std.specs.Prelude.{◌≡◌, ◌<◌, ◌≤◌, length};

pub(crate) mod opening;

/// Two lists of one length, of 1 to 2,209 numbers.
// Two slices and not one of pairs: both are lent by a history, and pairs would need a copy of them.
#[derive(Drop)]
pub(crate) struct Hours<'a> {
    pub(crate) averages: &'a [i32],
    pub(crate) day_ahead: &'a [i32],
    ghost some: { 0 < length averages.now },
    ghost few: { length averages.now ≤ 2209 },
    ghost paired: { length day_ahead.now ≡ length averages.now },
}
