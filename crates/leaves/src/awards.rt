// Awards of a curve, exact amounts and cents.
ghost use Rattle.std.specs.Prelude.{◌≡◌, pos, neg_ℤ, ◌≤ℤ◌, if◌then◌else◌, Some};
ghost use Rattle.rules.specs.Awards.{is_met, award_of, exact_amount, cents_of};

use market::bounded::{Average, DayAheadPrice, HeldQuantity};
use market::bounds::{Amount, Cents, Price, Quantity};
use market::segment::Segment;
use market::words::Side;

/// Whether a day-ahead price meets a segment: supply at or below it, demand at or above it.
pub fn is_met(side: Side, day_ahead: Price, segment: Segment) -> bool
    ensures { result ≡ is_met side day_ahead segment }
{
    match side {
        Side::Supply => segment.price <= day_ahead,
        Side::Demand => day_ahead <= segment.price,
    }
}

// The award once one more segment was looked at.
fn award_after(
    side: Side,
    day_ahead: Price,
    segment: Segment,
    found: Option<Quantity>,
) -> Option<Quantity>
    ensures { result ≡ (if is_met side day_ahead segment then Some segment.end else found) }
{
    if is_met(side, day_ahead, segment) {
        Some(segment.end)
    } else {
        found
    }
}

/// The end of the last segment that a day-ahead price meets; none where it meets none.
pub fn award_of(side: Side, curve: &[Segment], day_ahead: Price) -> Option<Quantity>
    ensures { result ≡ award_of side day_ahead curve.now }
{
    curve.iter().fold(None, |found, segment| {
        award_after(side, day_ahead, *segment, found)
    })
}

// What supply gains by an award; demand gains the negative.
fn supply_gain(quantity: HeldQuantity, day_ahead: DayAheadPrice, average: Average) -> Amount
    ensures value { result ≡ exact_amount Side.Supply quantity day_ahead average }
    ensures least { neg_ℤ (pos 240000000000) ≤ℤ result }
{
    quantity.value() * (12 * day_ahead.value() - average.value())
}

/// What an award gains: supply the day-ahead price less the real-time average, demand the negative.
pub fn exact_amount(
    side: Side,
    quantity: HeldQuantity,
    day_ahead: DayAheadPrice,
    average: Average,
) -> Amount
    ensures { result ≡ exact_amount side quantity day_ahead average }
{
    let gain = supply_gain(quantity, day_ahead, average);
    match side {
        Side::Supply => gain,
        Side::Demand => -gain,
    }
}

const CENT: u64 = 120; // amounts are 120 to the cent

const HALF_CENT: u64 = 60;

/// An amount in cents, to the nearest, halves away from zero.
pub fn cents_of(amount: Amount) -> Cents
    ensures { result ≡ cents_of amount }
{
    // Cents fit 63 bits, and the library has no `From` between the two types.
    let nearest = ((amount.unsigned_abs() + HALF_CENT) / CENT) as i64;
    nearest * amount.signum()
}
