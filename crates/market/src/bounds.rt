// What each number measures, and the bounds that the rules set.

/// In tenths of a MW; over one hour, of a MWh.
pub type Quantity = i64;

/// In cents per MWh.
pub type Price = i64;

/// In twelfths of a cent per MWh.
pub type Rate = i64;

/// Quantity × rate, 120 to the cent.
pub type Amount = i64;

pub type Cents = i64;

/// Counted from 1.
pub type Hour = i64;

/// Of an account, a location, a hold or a bid, counted from 1.
pub type Number = i64;

pub const SHORTEST_DAY: i64 = 23; // hours, when clocks go forward

pub const LONGEST_DAY: i64 = 25; // hours, when clocks go back

pub const LAST_MONTH: i64 = 600; // counted from the month in which the provision took effect

pub const LOCATIONS: i64 = 64; // locations of a book and of each price table

pub const HIGHEST_PRICE: i64 = 1_000_000; // of a day-ahead or interval price, with or without a minus

pub const HIGHEST_AVERAGE: i64 = 12_000_000; // twelve five-minute prices at their highest

pub const HIGHEST_REFERENCE: i64 = 24_000_000; // an average less 12 × a day-ahead price at its highest
