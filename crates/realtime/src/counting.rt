// A source that counts its questions, and means what the one below it means.
ghost use Rattle.std.specs.Prelude.{◌≡◌, ◌+◌, ◌%◌, ◌^◌};

use crate::source::Source;
use market::bounds::{Hour, Number, Rate};
use market::fault::SourceFault;

/// A source beside the count of questions that it was asked.
#[derive(Drop)]
pub struct Counting<S> {
    below: S,
    asked: u64,
}

impl<S> Counting<S> {
    /// The source, not yet asked anything.
    pub fn over(below: S) -> Counting<S>
        ensures same_source { result.below ≡ below }
        ensures none_asked { result.asked ≡ 0 }
    {
        Counting { below, asked: 0 }
    }

    /// How many questions it was asked; past 64 bits it counts from 0 again.
    pub fn asked(&self) -> u64
        ensures { result ≡ self.now.asked }
    {
        self.asked
    }
}

impl<S: Source> Source for Counting<S> {
    ghost meaning = { λ s. S.Source.meaning s.below };

    ghost bounded = { λ s. S.Source.bounded s.below };

    fn average(&mut self, location: Number, hour: Hour) -> Result<Rate, SourceFault>
        ensures answers_by_meaning { result ≡ S.Source.meaning self.old.below location hour }
        ensures keeps_the_meaning { S.Source.meaning self.new.below ≡ S.Source.meaning self.old.below }
        ensures counts_one { self.new.asked ≡ (self.old.asked + 1) % 2 ^ 64 }
    {
        let Counting { below, asked } = self;
        *asked = asked.wrapping_add(1);
        below.average(location, hour)
    }
}
