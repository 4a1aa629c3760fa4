// Numbers that count from 1.
ghost use Rattle.lists.specs.Counted.{CountedFromOne};

/// The index, from 0, of what is numbered from 1 to `count`; none for another number.
pub fn index_from_one(number: i64, count: usize) -> Option<usize>
    ensures { CountedFromOne count number result }
{
    let index = usize::try_from(number).ok()?.checked_sub(1)?;
    if index < count { Some(index) } else { None }
}
