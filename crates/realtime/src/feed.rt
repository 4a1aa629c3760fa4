// A feed: interval prices of locations and hours over a list that is lent, one kind for every count of prices an hour.
ghost use Rattle.std.specs.Prelude.{◌*◌};
ghost use Rattle.realtime.specs.Feeds.{Stands, Priced};

pub mod check;
pub mod opening;
pub mod reading;

use lists::layout::Sizes;

const PUBLISHED: i32 = 1; // the mark of a published hour in a list of numbers, 0 being that of one that is not

/// A list beside its sizes, with `PER` prices to an hour of a location; over a list that did not pass the check both sizes are 0.
// The list stays whole, and is cut where it is read: what a feed means is said of its list.
#[derive(Drop)]
pub struct Feed<'a, const PER: u8> {
    list: &'a [i32],
    sizes: Sizes,
    ghost stands: { Stands PER list.now (sizes.rows * sizes.columns) },
    ghost priced: { Priced PER list.now (sizes.rows * sizes.columns) },
}

/// Twelve five-minute prices an hour, whose sum is the average.
pub type DispatchFeed<'a> = Feed<'a, 12>;

/// Four fifteen-minute prices an hour, whose sum three times is the average.
pub type HaspFeed<'a> = Feed<'a, 4>;
