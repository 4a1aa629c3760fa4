// The policy: what a book asks for reference prices.
ghost use Rattle.std.specs.Prelude.{◌≡◌, ℤ, Result};
ghost use Rattle.market.specs.declared.fault.PolicyFault.{PolicyFault};
ghost use Rattle.market.specs.declared.words.Side.{Side};
ghost use Rattle.reference.specs.Prices.{Priced, price_or_refuse};

use market::bounds::{Number, Rate};
use market::fault::{Asked, Fault, PolicyFault};
use market::words::Side;

/// A source of reference prices, held to its meaning alone: a price for each location and side, or a fault.
pub trait Policy {
    ghost meaning: { Self → ℤ → Side → Result ℤ PolicyFault };

    ghost bounded: { (p : Self) (l : ℤ) (s : Side) → Priced (meaning p l s) };

    // Location and side are two parameters: a struct of both would be made at each question to be taken apart at once.
    /// The price of a location and side, or why there is none.
    fn quote(&mut self, location: Number, side: Side) -> Result<Rate, PolicyFault>
        ensures answers_by_meaning { result ≡ meaning self.old location side }
        ensures keeps_the_meaning { meaning self.new ≡ meaning self.old };
}

/// A policy's price, or refusal 6 of the location that was asked for, with the policy's fault whole.
pub fn price_or_refuse<P: Policy>(
    policy: &mut P,
    location: Number,
    side: Side,
) -> Result<Rate, Fault>
    ensures answers_by_meaning { result ≡ price_or_refuse location (P.meaning policy.old location side) }
    ensures keeps_the_meaning { P.meaning policy.new ≡ P.meaning policy.old }
{
    let asked = location;
    policy
        .quote(location, side)
        .map_err(|fault| Fault::from(Asked { asked, fault }))
}
