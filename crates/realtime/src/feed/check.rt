// The check of a feed's list: its layout, handed to the one check of lists.
ghost use Rattle.std.specs.Prelude.{◌≡◌};
ghost use Rattle.lists.specs.Lists.{Checked};
ghost use Rattle.realtime.specs.Feeds.{feed_layout};

use super::{Feed, PUBLISHED};
use lists::layout::{Block, Layout, Sizes};
use market::bounds::{HIGHEST_PRICE, LOCATIONS, LONGEST_DAY};
use market::fault::Fault;
use market::words::Layer;

impl<const PER: u8> Feed<'_, PER> {
    /// Locations and hours, a mark for each, `PER` prices for each.
    fn layout() -> Layout
        ensures { result ≡ feed_layout PER }
    {
        // The market's bounds have 64 bits, a list's numbers 32, its sizes 8 and 16: each bound fits.
        Layout {
            layer: Layer::RealTime,
            rows: LOCATIONS as u8,
            columns: LONGEST_DAY as u16,
            first: Block {
                per_cell: 1,
                low: 0,
                high: PUBLISHED,
            },
            second: Block {
                per_cell: PER,
                low: -HIGHEST_PRICE as i32,
                high: HIGHEST_PRICE as i32,
            },
        }
    }

    /// Checks the list of a feed: how many locations and hours it has, or refusal 1 of the real-time layer with the place.
    pub fn check(list: &[i32]) -> Result<Sizes, Fault>
        ensures { Checked (feed_layout PER) list.now result }
    {
        Feed::<PER>::layout().check(list)
    }
}
