// The check of a history's list, and the history over a list.
ghost use Rattle.std.specs.Prelude.{◌≡◌};
ghost use Rattle.lists.specs.Lists.{Checked, Passed};
ghost use Rattle.reference.specs.Histories.{history_layout, Holds, HoldsNothing, HistoryOpened, HistoryOver};

use super::History;
use crate::percentile::HOURS_OF_HISTORY;
use lists::layout::{Block, Layout, Sizes};
use market::bounds::{HIGHEST_AVERAGE, HIGHEST_PRICE, LOCATIONS};
use market::fault::Fault;
use market::words::Layer;

/// Up to 64 locations and 2,209 hours; for each a day-ahead price, then for each an average.
// The market's bounds have 64 bits, a list's numbers 32, its sizes 8 and 16: each bound fits.
const HISTORY: Layout = Layout {
    layer: Layer::Policy,
    rows: LOCATIONS as u8,
    columns: HOURS_OF_HISTORY as u16,
    first: Block {
        per_cell: 1,
        low: -HIGHEST_PRICE as i32,
        high: HIGHEST_PRICE as i32,
    },
    second: Block {
        per_cell: 1,
        low: -HIGHEST_AVERAGE as i32,
        high: HIGHEST_AVERAGE as i32,
    },
};

/// Checks the list of a history: how many locations and hours it has, or refusal 1 of the policy with the place.
pub fn check_history(list: &[i32]) -> Result<Sizes, Fault>
    ensures { Checked history_layout list.now result }
{
    HISTORY.check(list)
}

// A history is checked and opened as a feed is. They share the check; what they keep of the list, and promise of it, differs.

impl<'a> History<'a> {
    /// What a list that passed its check holds.
    fn read(list: &'a [i32], sizes: Sizes) -> History<'a>
        requires { Passed history_layout list.now sizes }
        ensures { Holds list.now sizes result }
    {
        let (_, numbers) = list.split_at(2);
        let (day_ahead, averages) = numbers.split_at(sizes.cells());
        History {
            sizes,
            day_ahead,
            averages,
        }
    }

    /// No location and no hour.
    fn nothing() -> History<'a>
        ensures { HoldsNothing result }
    {
        History {
            sizes: Sizes::default(),
            day_ahead: &[],
            averages: &[],
        }
    }

    /// The history over a list that passes its check, or the refusal of the check.
    pub fn open(list: &'a [i32]) -> Result<History<'a>, Fault>
        ensures { HistoryOpened list.now result }
    {
        let sizes = check_history(list)?;
        Ok(History::read(list, sizes))
    }

    /// The history over a list; over one that does not pass its check, a history of no location.
    pub fn over(list: &'a [i32]) -> History<'a>
        ensures { HistoryOver list.now result }
    {
        let Ok(history) = History::open(list) else {
            return History::nothing();
        };
        history
    }

    /// How many locations and hours it has.
    pub fn sizes(&self) -> Sizes
        ensures { result ≡ self.now.sizes }
    {
        self.sizes
    }
}
