// Letters in and out: each kind has one letter for each of its cases.
ghost use Rattle.std.specs.Prelude.{◌≡◌};
ghost use Rattle.market.specs.Letters.{Reads, side_letter, class_letter, period_letter, layer_letter, side_named, class_named, period_named, layer_named};

use crate::words::{Class, Layer, Period, Side, UnknownLetter};

// Each kind lists its own letters, by literal cases: the impls differ in what they list, and in nothing that could be shared.

impl TryFrom<char> for Side {
    type Error = UnknownLetter;

    ghost try_from_gives = { Reads side_letter side_named };

    /// The side that a letter names.
    fn try_from(letter: char) -> Result<Side, UnknownLetter> {
        match letter {
            'S' => Ok(Side::Supply),
            'D' => Ok(Side::Demand),
            _ => Err(UnknownLetter(letter)),
        }
    }
}

impl From<Side> for char {
    ghost from_gives = { λ side letter. letter ≡ side_letter side };

    /// The letter of a side.
    fn from(side: Side) -> char {
        match side {
            Side::Supply => 'S',
            Side::Demand => 'D',
        }
    }
}

impl TryFrom<char> for Class {
    type Error = UnknownLetter;

    ghost try_from_gives = { Reads class_letter class_named };

    /// The class that a letter names.
    fn try_from(letter: char) -> Result<Class, UnknownLetter> {
        match letter {
            'N' => Ok(Class::Node),
            'A' => Ok(Class::Aggregate),
            'L' => Ok(Class::LoadPoint),
            'T' => Ok(Class::Hub),
            'I' => Ok(Class::Intertie),
            _ => Err(UnknownLetter(letter)),
        }
    }
}

impl From<Class> for char {
    ghost from_gives = { λ class letter. letter ≡ class_letter class };

    /// The letter of a class.
    fn from(class: Class) -> char {
        match class {
            Class::Node => 'N',
            Class::Aggregate => 'A',
            Class::LoadPoint => 'L',
            Class::Hub => 'T',
            Class::Intertie => 'I',
        }
    }
}

impl TryFrom<char> for Period {
    type Error = UnknownLetter;

    ghost try_from_gives = { Reads period_letter period_named };

    /// The period that a letter names.
    fn try_from(letter: char) -> Result<Period, UnknownLetter> {
        match letter {
            'P' => Ok(Period::Peak),
            'O' => Ok(Period::OffPeak),
            _ => Err(UnknownLetter(letter)),
        }
    }
}

impl From<Period> for char {
    ghost from_gives = { λ period letter. letter ≡ period_letter period };

    /// The letter of a period.
    fn from(period: Period) -> char {
        match period {
            Period::Peak => 'P',
            Period::OffPeak => 'O',
        }
    }
}

impl TryFrom<char> for Layer {
    type Error = UnknownLetter;

    ghost try_from_gives = { Reads layer_letter layer_named };

    /// The layer that a letter names.
    fn try_from(letter: char) -> Result<Layer, UnknownLetter> {
        match letter {
            'B' => Ok(Layer::Book),
            'P' => Ok(Layer::Policy),
            'R' => Ok(Layer::RealTime),
            _ => Err(UnknownLetter(letter)),
        }
    }
}

impl From<Layer> for char {
    ghost from_gives = { λ layer letter. letter ≡ layer_letter layer };

    /// The letter of a layer.
    fn from(layer: Layer) -> char {
        match layer {
            Layer::Book => 'B',
            Layer::Policy => 'P',
            Layer::RealTime => 'R',
        }
    }
}
