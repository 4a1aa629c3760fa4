// The rate of a price, and the charge by it.
ghost use Rattle.std.specs.Prelude.{◌≡◌};
ghost use Rattle.rules.specs.Credit.{rate_of, charge_of};

use market::bounded::{HeldQuantity, HoldRate};
use market::bounds::{Amount, Rate};

/// The rate of a reference price: the price, or 0 where that is below zero.
pub fn rate_of(price: Rate) -> Rate
    ensures { result ≡ rate_of price }
{
    price.max(0)
}

/// What a quantity is charged by a rate.
pub fn charge_of(quantity: HeldQuantity, rate: HoldRate) -> Amount
    ensures { result ≡ charge_of quantity rate }
{
    quantity.value() * rate.value()
}
