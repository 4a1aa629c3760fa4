// The kinds that a letter names: sides, classes, periods, layers.

/// Which way a bid goes.
#[derive(Clone, Copy, Debug, PartialEq, Eq)]
pub enum Side {
    Supply,
    Demand,
}

/// What kind of place a location is: an Eligible PNode, an aggregated one, a Default LAP, a Trading Hub, an Intertie.
#[derive(Clone, Copy, Debug, PartialEq, Eq)]
pub enum Class {
    Node,
    Aggregate,
    LoadPoint,
    Hub,
    Intertie,
}

/// The hours that a CRR adjustment looks at.
#[derive(Clone, Copy, Debug, PartialEq, Eq)]
pub enum Period {
    Peak,
    OffPeak,
}

/// Who refuses: the book, a policy, a real-time source.
#[derive(Clone, Copy, Debug, PartialEq, Eq)]
pub enum Layer {
    Book,
    Policy,
    RealTime,
}

/// A letter that names no case of a kind.
#[derive(Clone, Copy, Debug, PartialEq, Eq)]
pub struct UnknownLetter(pub char);
