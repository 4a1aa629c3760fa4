// The pick: it narrows a gap from below and above until the element of the rank is met in it.
ghost use Rattle.std.specs.Prelude.{◌≡◌, count_by};
ghost use Rattle.rank.specs.Narrow.{between, Between};
ghost use Rattle.rank.specs.Ranks.{ahead, before, Picked};

use crate::order::Order;
use std::cmp::Ordering;

/// How many elements of the list go before x.
fn count_before<T: Ord>(items: &[T], x: &T) -> usize
    ensures { result ≡ ahead (before T.cmp) x.now items.now }
{
    // Ones are added up, and the ends of a gap joined by `&`: a branch on each element of a list in no order costs more.
    items.iter().map(|y| usize::from(y < x)).sum()
}

/// What lies strictly between two elements, where these are given.
#[derive(Clone, Copy)]
struct Gap<T> {
    low: Option<T>,
    high: Option<T>,
}

impl<T: Ord + Copy> Gap<T> {
    /// Whether x lies in the gap.
    fn holds(&self, x: &T) -> bool
        ensures { result ≡ between (before T.cmp) self.now x.now }
    {
        self.low.is_none_or(|low| low < *x) & self.high.is_none_or(|high| *x < high)
    }

    /// How many elements of the list lie in the gap.
    fn count(&self, items: &[T]) -> usize
        ensures { result ≡ count_by (between (before T.cmp) self.now) items.now }
    {
        items.iter().map(|x| usize::from(self.holds(x))).sum()
    }

    /// The middle one, as they stand, of the elements of the list in the gap.
    fn middle(&self, items: &[T]) -> Option<T>
        ensures { Between (before T.cmp) self.now items.now result }
    {
        let half = self.count(items) / 2;
        items.iter().filter(|x| self.holds(x)).nth(half).copied()
    }
}

/// The element of the list that has exactly `rank` - 1 elements before it, or none where none has.
pub fn pick<T: Order + Copy>(items: &[T], rank: usize) -> Option<T>
    ensures { Picked (before T.cmp) items.now rank result }
{
    // No element has rank 0.
    let ahead = rank.checked_sub(1)?;
    let mut gap = Gap {
        low: None,
        high: None,
    };
    while let Some(x) = gap.middle(items) {
        match count_before(items, &x).cmp(&ahead) {
            Ordering::Less => gap.low = Some(x),
            Ordering::Equal => return Some(x),
            Ordering::Greater => gap.high = Some(x),
        }
    }
    None
}
