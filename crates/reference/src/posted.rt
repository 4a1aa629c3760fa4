// The posted policy: a table of prices by location and side.
ghost use Rattle.std.specs.Prelude.{◌≡◌, true};
ghost use Rattle.reference.specs.Fair.{fair};

pub mod prices;

use market::bounds::{LOCATIONS, Rate};

const PLACES: usize = LOCATIONS as usize; // of the table, one a location; the bound fits an index

/// A location's prices by side, each where it was posted.
#[derive(Clone, Copy)]
struct Entry {
    supply: Option<Rate>,
    demand: Option<Rate>,
    ghost supply_fair: { fair supply ≡ true },
    ghost demand_fair: { fair demand ≡ true },
}

/// Prices of locations 1 to 64 by side, where they were posted.
#[derive(Drop)]
pub struct Posted {
    entries: [Entry; PLACES],
}
