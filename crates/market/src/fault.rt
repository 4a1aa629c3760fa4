// What a refusal says: a closed enum in the order of the questions, with its number, place and layer.
ghost use Rattle.std.specs.Prelude.{◌≡◌};
ghost use Rattle.market.specs.Causes.{cause_number};
ghost use Rattle.market.specs.Faults.{fault_number, fault_place, fault_layer};
ghost use Rattle.market.specs.declared.fault.Fault.TheVariants.{NoPrice, NoAverage};

use crate::bounds::Number;
use crate::words::Layer;

/// Why a policy has no price or a source no average.
#[derive(Clone, Copy, Debug, PartialEq, Eq)]
pub enum Cause {
    Outside = 1,
    Missing = 2,
}

// The two faults below have the same fields and stay two types: a source's fault could pass for a policy's otherwise, and the
// wrong layer be blamed.

/// Why a policy has no price, and for which location.
#[derive(Clone, Copy, Debug, PartialEq, Eq)]
pub struct PolicyFault {
    pub cause: Cause,
    pub location: Number,
}

/// Why a source has no average, and for which location.
#[derive(Clone, Copy, Debug, PartialEq, Eq)]
pub struct SourceFault {
    pub cause: Cause,
    pub location: Number,
}

/// The fault of a layer below beside the location that was asked for.
#[derive(Clone, Copy, Debug, PartialEq, Eq)]
pub struct Asked<F> {
    pub asked: Number,
    pub fault: F,
}

/// Why a call, a check or a reading refuses.
#[derive(Clone, Copy, Debug, PartialEq, Eq)]
pub enum Fault {
    BadArgument { layer: Layer, place: i64 },
    Unknown(Number),
    NotStanding(Number),
    WrongStage(i64),
    NoPlaceFree(i64),
    NoPrice(Asked<PolicyFault>),
    OverCredit(Number),
    BadCurve(i64),
    OverHeld(i64),
    SecondBid(Number),
    PathUnrated(Number),
    OverPosition(Number),
    HoldStands(Number),
    NoAverage(Asked<SourceFault>),
    AlreadyAdjusted(i64),
}

impl Cause {
    // A number stays, here and of a refusal: the rules call each by it. The cases have the rules' numbers, which a cast reads.

    /// The number by which the rules call a cause.
    pub fn number(self) -> u8
        ensures { result ≡ cause_number self }
    {
        self as u8
    }
}

impl From<Asked<PolicyFault>> for Fault {
    ghost from_gives = { λ u r. r ≡ NoPrice u };

    fn from(found: Asked<PolicyFault>) -> Fault {
        Fault::NoPrice(found)
    }
}

impl From<Asked<SourceFault>> for Fault {
    ghost from_gives = { λ u r. r ≡ NoAverage u };

    fn from(found: Asked<SourceFault>) -> Fault {
        Fault::NoAverage(found)
    }
}

impl Fault {
    /// The number of the question that said no.
    pub fn number(&self) -> u8
        ensures { result ≡ fault_number self.now }
    {
        match self {
            Fault::BadArgument { .. } => 1,
            Fault::Unknown(_) => 2,
            Fault::NotStanding(_) => 3,
            Fault::WrongStage(_) => 4,
            Fault::NoPlaceFree(_) => 5,
            Fault::NoPrice(_) => 6,
            Fault::OverCredit(_) => 7,
            Fault::BadCurve(_) => 8,
            Fault::OverHeld(_) => 9,
            Fault::SecondBid(_) => 10,
            Fault::PathUnrated(_) => 11,
            Fault::OverPosition(_) => 12,
            Fault::HoldStands(_) => 13,
            Fault::NoAverage(_) => 14,
            Fault::AlreadyAdjusted(_) => 15,
        }
    }

    /// Where: a position, a number, an index or a length, by the question.
    pub fn place(&self) -> i64
        ensures { result ≡ fault_place self.now }
    {
        match self {
            Fault::BadArgument { place, .. } => *place,
            Fault::NoPrice(below) => below.asked,
            Fault::NoAverage(below) => below.asked,
            Fault::Unknown(place)
            | Fault::NotStanding(place)
            | Fault::WrongStage(place)
            | Fault::NoPlaceFree(place)
            | Fault::OverCredit(place)
            | Fault::BadCurve(place)
            | Fault::OverHeld(place)
            | Fault::SecondBid(place)
            | Fault::PathUnrated(place)
            | Fault::OverPosition(place)
            | Fault::HoldStands(place)
            | Fault::AlreadyAdjusted(place) => *place,
        }
    }

    /// Who refuses.
    pub fn layer(&self) -> Layer
        ensures { result ≡ fault_layer self.now }
    {
        match self {
            Fault::BadArgument { layer, .. } => *layer,
            Fault::NoPrice(_) => Layer::Policy,
            Fault::NoAverage(_) => Layer::RealTime,
            _ => Layer::Book,
        }
    }
}
