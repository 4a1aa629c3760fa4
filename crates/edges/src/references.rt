// Edges of reference prices: the posted table, the history's check, its prices.
use crate::shown::is_refused;
use lists::layout::Sizes;
use market::fault::Fault;
use market::words::Side;
use reference::history::History;
use reference::history::check::check_history;
use reference::policy::{Policy, price_or_refuse};
use reference::posted::Posted;
use reference::unposted::Unposted;
use std::alloc::Global;
use std::process::Abort;
use std::test::Fail;

// The number and not the `Cause`: it is what the rules say and what is tested.

/// What a policy answers: a price, or the number of the fault's cause.
fn answer<P: Policy>(policy: &mut P, location: i64, side: Side) -> Result<i64, u8> {
    policy
        .quote(location, side)
        .map_err(|fault| fault.cause.number())
}

/// Each list is refused by the policy at its place.
fn refused_at(rt: &impl Abort, heap: Global, list: &[i32], text: &str) -> Result<(), Fail> {
    is_refused(rt, heap, check_history(list), text)
}

/// A list that passes has these sizes.
fn passes(rt: &impl Abort, list: &[i32], rows: u8, columns: u16) {
    assert_eq!(rt; check_history(list), Ok(Sizes { rows, columns }));
}

#[test]
fn a_post_changes_one_entry_or_nothing(rt: HostRuntime) -> Result<(), Fail> {
    let mut posted = Posted::new();
    assert_eq!(rt; posted.post(1, Side::Supply, 24_000_000), Ok(()));
    assert_eq!(rt; posted.post(64, Side::Demand, -24_000_000), Ok(()));
    assert_eq!(rt; answer(&mut posted, 1, Side::Supply), Ok(24_000_000));
    assert_eq!(rt; answer(&mut posted, 1, Side::Demand), Err(2));
    assert_eq!(rt; answer(&mut posted, 64, Side::Demand), Ok(-24_000_000));
    assert_eq!(rt; answer(&mut posted, 65, Side::Demand), Err(1));
    assert_eq!(rt; answer(&mut posted, i64::MIN, Side::Demand), Err(1));
    let low = posted.post(0, Side::Supply, 5);
    is_refused(&rt, rt.alloc(), low, "P 1 0")?;
    let high = posted.post(1, Side::Supply, 24_000_001);
    is_refused(&rt, rt.alloc(), high, "P 1 1")?;
    assert_eq!(rt; answer(&mut posted, 1, Side::Supply), Ok(24_000_000));
    Ok(())
}

#[test]
fn faults_alone_are_lawful(rt: HostRuntime) -> Result<(), Fail> {
    let price = price_or_refuse(&mut Unposted, 3, Side::Supply);
    is_refused(&rt, rt.alloc(), price, "P 6 3")
}

#[test]
fn sizes_are_refused_at_their_place(rt: HostRuntime) -> Result<(), Fail> {
    let heap = rt.alloc();
    refused_at(&rt, heap, &[], "P 1 0")?;
    refused_at(&rt, heap, &[65], "P 1 1")?;
    refused_at(&rt, heap, &[65, -1], "P 1 0")?;
    refused_at(&rt, heap, &[-1, 0], "P 1 0")?;
    refused_at(&rt, heap, &[64, 2210], "P 1 1")?;
    refused_at(&rt, heap, &[64, -1], "P 1 1")?;
    refused_at(&rt, heap, &[0, 0, 0], "P 1 3")?;
    refused_at(&rt, heap, &[1, 1, 0], "P 1 3")?;
    passes(&rt, &[0, 0], 0, 0);
    passes(&rt, &[64, 0], 64, 0);
    passes(&rt, &[0, 2209], 0, 2209);
    Ok(())
}

#[test]
fn numbers_are_refused_at_the_first_out_of_bounds(rt: HostRuntime) -> Result<(), Fail> {
    let heap = rt.alloc();
    passes(
        &rt,
        &[1, 2, -1_000_000, 1_000_000, 12_000_000, -12_000_000],
        1,
        2,
    );
    refused_at(&rt, heap, &[1, 2, 1_000_001, 0, 0, 0], "P 1 2")?;
    refused_at(&rt, heap, &[1, 2, 0, -1_000_001, 12_000_001, 0], "P 1 3")?;
    refused_at(&rt, heap, &[1, 2, 0, 0, 12_000_001, 0], "P 1 4")?;
    refused_at(&rt, heap, &[1, 2, 0, 0, 0, -12_000_001], "P 1 5")
}

/// What the history over a list answers.
fn priced(list: &[i32], location: i64, side: Side) -> Result<i64, u8> {
    answer(&mut History::over(list), location, side)
}

#[test]
fn a_history_prices_its_locations_alone(rt: HostRuntime) {
    let list = [2, 1, 100, -50, 1_300, 0];
    assert_eq!(rt; priced(&list, 1, Side::Supply), Ok(100));
    assert_eq!(rt; priced(&list, 1, Side::Demand), Ok(-100));
    assert_eq!(rt; priced(&list, 2, Side::Supply), Ok(600));
    assert_eq!(rt; priced(&list, 0, Side::Supply), Err(1));
    assert_eq!(rt; priced(&list, 3, Side::Supply), Err(1));
}

#[test]
fn a_history_without_hours_or_damaged_has_no_price(rt: HostRuntime) -> Result<(), Fail> {
    assert_eq!(rt; priced(&[2, 0], 2, Side::Supply), Err(2));
    assert_eq!(rt; priced(&[2, 0], 3, Side::Supply), Err(1));
    assert_eq!(rt; priced(&[2, 1, 0], 1, Side::Supply), Err(1));
    assert_eq!(rt; History::open(&[2, 0])?.sizes().rows, 2);
    is_refused(&rt, rt.alloc(), History::open(&[2, 1, 0]), "P 1 3")
}
