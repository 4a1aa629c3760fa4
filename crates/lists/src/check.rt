// The check of a list, one for every layout.
ghost use Rattle.std.specs.Prelude.{◌≡◌, ℕ, ◌*◌, ◌^◌, ◌<◌, pos, drop, IfOk, IfErr, position};
ghost use Rattle.market.specs.declared.fault.Fault.TheVariants.{BadArgument};
ghost use Rattle.lists.specs.Lists.{out_of, SizesRead, SizesRefused, Checked};

use crate::layout::{Block, Layout, Sizes};
use market::fault::Fault;

impl Block {
    /// Whether a number is below `low` or above `high`.
    fn is_outside(&self, number: i32) -> bool
        ensures { result ≡ out_of self.now.low self.now.high number }
    {
        !(self.low..=self.high).contains(&number)
    }

    /// The index of the first number below `low` or above `high`.
    fn first_outside(&self, numbers: &[i32]) -> Option<usize>
        ensures { result ≡ position (out_of self.now.low self.now.high) numbers.now }
    {
        numbers.iter().position(|number| self.is_outside(*number))
    }

    /// How many numbers it has in all cells.
    fn length(&self, sizes: Sizes) -> usize
        ensures value { result ≡ (sizes.rows * sizes.columns) * self.now.per_cell }
        ensures bound { result < 2 ^ 32 }
    {
        sizes.cells() * usize::from(self.per_cell)
    }
}

impl Layout {
    /// Refusal 1 of the layer, at a place of the list.
    fn refused_at(&self, place: usize) -> Fault
        requires { place < 2 ^ 63 }
        ensures { result ≡ BadArgument self.now.layer (pos place) }
    {
        // A place of a list fits 63 bits, and the library has no `From` between the two types.
        Fault::BadArgument {
            layer: self.layer,
            place: place as i64,
        }
    }

    /// The sizes in front and the numbers behind them, or the refusal of the sizes.
    fn read_sizes<'l>(&self, list: &'l [i32]) -> Result<(Sizes, &'l [i32]), Fault>
        ensures read { IfOk result (λ r. SizesRead self.now list.now r.0) }
        ensures rest { IfOk result (λ r. r.1.now ≡ drop 2 list.now) }
        ensures refused { IfErr result (λ f. (p : ℕ) × SizesRefused self.now list.now p × (f ≡ BadArgument self.now.layer (pos p))) }
    {
        let [rows, columns, numbers @ ..] = list else {
            return Err(self.refused_at(list.len()));
        };
        if *rows < 0 || i32::from(self.rows) < *rows {
            return Err(self.refused_at(0));
        }
        if *columns < 0 || i32::from(self.columns) < *columns {
            return Err(self.refused_at(1));
        }
        // `try_from` was tried in place of the tests above: the proof of the refusal did not close.
        let sizes = Sizes {
            rows: *rows as u8,
            columns: *columns as u16,
        };
        Ok((sizes, numbers))
    }

    /// Checks a list: its sizes, or refusal 1 with the place of what is wrong.
    pub fn check(&self, list: &[i32]) -> Result<Sizes, Fault>
        ensures { Checked self.now list.now result }
    {
        let (sizes, numbers) = self.read_sizes(list)?;
        let begins = self.first.length(sizes);
        if numbers.len() != begins + self.second.length(sizes) {
            return Err(self.refused_at(list.len()));
        }
        let (first, second) = numbers.split_at(begins);
        if let Some(index) = self.first.first_outside(first) {
            return Err(self.refused_at(2 + index));
        }
        if let Some(index) = self.second.first_outside(second) {
            return Err(self.refused_at(2 + begins + index));
        }
        Ok(sizes)
    }
}
