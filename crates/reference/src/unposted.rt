// A policy of faults alone, which is lawful: it has a price for no location.
ghost use Rattle.reference.specs.Prices.{missing, missing_priced};

use crate::policy::Policy;
use market::bounds::{Number, Rate};
use market::fault::{Cause, PolicyFault};
use market::words::Side;

/// Prices nothing.
#[derive(Clone, Copy)]
pub struct Unposted;

impl Policy for Unposted {
    ghost meaning = { λ p. missing };

    ghost bounded = { λ p. missing_priced };

    fn quote(&mut self, location: Number, _side: Side) -> Result<Rate, PolicyFault> {
        Err(PolicyFault {
            cause: Cause::Missing,
            location,
        })
    }
}
