// How far a bid and the day have come.
use market::bounds::{Amount, Quantity};

/// A bid is booked, awarded a quantity, given its exact amount, and paid.
#[derive(Clone, Copy)]
pub enum BidStage {
    Booked,
    Awarded { quantity: Quantity },
    Priced { quantity: Quantity, amount: Amount },
    Paid { quantity: Quantity, amount: Amount },
}

/// Whether bids are taken.
#[derive(Clone, Copy)]
pub enum DayStage {
    Open,
    Closed,
}
