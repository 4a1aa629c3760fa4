// A congestion revenue right, as an adjustment is told of it.
use market::bounds::{Number, Quantity};

/// A right to what congestion puts between two locations.
#[derive(Clone, Copy)]
pub struct Crr {
    pub source: Number,
    pub sink: Number,
    pub quantity: Quantity,
}
