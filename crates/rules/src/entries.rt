// What stands in the tables of a book and of the ledger.
use market::bounds::{Cents, Number, Quantity, Rate};
use market::words::{Class, Period, Side};

/// An account is one SCID of an entity, with a credit limit.
#[derive(Clone, Copy)]
pub struct AccountEntry {
    pub entity: i64,
    pub limit: Cents,
}

/// A location's limit is that of its positions; an intertie's is its Operating Transfer Capability.
#[derive(Clone, Copy)]
pub struct LocationEntry {
    pub class: Class,
    pub limit: Quantity,
}

/// The rate is the one that the policy's meaning gives at the hold.
#[derive(Clone, Copy)]
pub struct HoldEntry {
    pub number: Number,
    pub account: Number,
    pub location: Number,
    pub side: Side,
    pub quantity: Quantity,
    pub rate: Rate,
}

/// What an adjustment took from an account.
#[derive(Clone, Copy)]
pub struct ClawbackEntry {
    pub account: Number,
    pub constraint: i64,
    pub period: Period,
    pub cents: Cents,
}
