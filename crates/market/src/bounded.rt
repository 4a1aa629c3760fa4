// A number that its type holds to bounds.
ghost use Rattle.std.specs.Prelude.{◌≡◌, ℤ, pos, neg_ℤ, ◌≤ℤ◌, ◌↔◌, IsSome, IfSome};

use crate::bounds::{HIGHEST_AVERAGE, HIGHEST_PRICE, HIGHEST_REFERENCE};
use std::marker::Model;

const MOST_HELD: u32 = 10_000; // of a hold, and so of each bid and award on it

// The market's bounds have a sign and 64 bits; a parameter has neither, and each bound fits it.

const MOST_PRICE: u32 = HIGHEST_PRICE as u32;

const MOST_AVERAGE: u32 = HIGHEST_AVERAGE as u32;

const MOST_RATE: u32 = HIGHEST_REFERENCE as u32;

/// Of a hold, a bid or an award, in tenths of a MW.
pub type HeldQuantity = Bounded<0, MOST_HELD>;

/// What a hold is charged by, in twelfths of a cent per MWh.
pub type HoldRate = Bounded<0, MOST_RATE>;

/// Of a cleared hour, in cents per MWh.
pub type DayAheadPrice = Bounded<MOST_PRICE, MOST_PRICE>;

/// What a real-time source answers, in twelfths of a cent per MWh.
pub type Average = Bounded<MOST_AVERAGE, MOST_AVERAGE>;

/// A number that lies at most so far below zero and at most so far above it.
// The bounds are unsigned, since a signed parameter may not stand on a type with a model yet.
#[derive(Clone, Copy, Debug, PartialEq, Eq, PartialOrd, Ord)]
pub struct Bounded<const BELOW: u32, const ABOVE: u32> {
    value: i64,
}

impl<const BELOW: u32, const ABOVE: u32> Model for Bounded<BELOW, ABOVE> {
    ghost Value = { ℤ };

    ghost view = { λ b. b.value };

    ghost invariant = { λ b. (neg_ℤ (pos BELOW) ≤ℤ b.value) × (b.value ≤ℤ pos ABOVE) };

    ghost inverse = { λ z. record { value = z } };
}

impl<const BELOW: u32, const ABOVE: u32> Bounded<BELOW, ABOVE> {
    /// This number as one within the bounds; none where it lies outside of them.
    pub fn new(value: i64) -> Option<Self>
        ensures within { IsSome result ↔ ((neg_ℤ (pos BELOW) ≤ℤ value) × (value ≤ℤ pos ABOVE)) }
        ensures same { IfSome result (λ b. b ≡ value) }
    {
        if (-i64::from(BELOW)..=i64::from(ABOVE)).contains(&value) {
            Some(Bounded { value })
        } else {
            None
        }
    }

    /// The number, which lies within the bounds.
    pub fn value(self) -> i64
        ensures same { result ≡ self.entry }
        ensures within { (neg_ℤ (pos BELOW) ≤ℤ result) × (result ≤ℤ pos ABOVE) }
    {
        self.value
    }
}
