// A segment of a bid curve.
use crate::bounds::{Price, Quantity};

/// Where a segment of a curve ends, and its price.
#[derive(Clone, Copy, Debug, PartialEq, Eq)]
pub struct Segment {
    pub end: Quantity,
    pub price: Price,
}
