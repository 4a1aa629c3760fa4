// Edges of real-time prices: the check of a list, what a feed answers, a source that counts.
use crate::shown::is_refused;
use lists::layout::Sizes;
use market::fault::Fault;
use market::words::Layer;
use realtime::asking::average_or_fault;
use realtime::counting::Counting;
use realtime::feed::{DispatchFeed, HaspFeed};
use realtime::source::Source;
use std::process::Abort;
use std::test::Fail;

// Places and causes stand here as the rules' numbers, and the arrays below are the tests' data.

/// A list of numbers, and the place at which the check refuses it, or none where it passes.
type Row<'a> = (&'a [i32], Option<i64>);

/// The place at which refusal 1 of the real-time layer comes, or none where the list passed.
fn place_of(rt: &impl Abort, checked: Result<Sizes, Fault>) -> Option<i64> {
    let fault = checked.err()?;
    assert_eq!(rt; fault.number(), 1);
    assert_eq!(rt; fault.layer(), Layer::RealTime);
    Some(fault.place())
}

/// Each list is refused at its place, or passes.
fn look<C: Fn(&[i32]) -> Result<Sizes, Fault>>(rt: &impl Abort, check: C, rows: &[Row])
    requires { C.IsAlwaysCallable check }
{
    for (list, refused) in rows {
        assert_eq!(rt; place_of(rt, check(list)), *refused);
    }
}

/// The source has these averages: location, hour, average.
fn averages<S: Source>(rt: &impl Abort, source: &mut S, answers: &[(i64, i64, i64)]) {
    for (location, hour, average) in answers {
        let answer = average_or_fault(source, *location, *hour);
        assert_eq!(rt; answer, Ok(*average));
    }
}

/// The source has none at these, and says the cause and the location that was asked for: location, hour, cause.
fn lacks<S: Source>(
    rt: &impl Abort,
    source: &mut S,
    faults: &[(i64, i64, u8)],
) -> Result<(), Fail> {
    for (location, hour, cause) in faults {
        let Err(Fault::NoAverage(below)) = average_or_fault(source, *location, *hour) else {
            return Err(Fail::new("an average, or another fault"));
        };
        assert_eq!(rt; below.asked, *location);
        assert_eq!(rt; below.fault.location, *location);
        assert_eq!(rt; below.fault.cause.number(), *cause);
    }
    Ok(())
}

#[test]
fn sizes_and_length(rt: HostRuntime) {
    let rows: [Row; 9] = [
        (&[0, 0], None),
        (&[64, 0], None),
        (&[0, 25], None),
        (&[65, 26], Some(0)),
        (&[-1, 0], Some(0)),
        (&[64, 26], Some(1)),
        (&[0, -1], Some(1)),
        (&[1, 1], Some(2)),
        (&[64, 25], Some(2)),
    ];
    look(&rt, DispatchFeed::check, &rows);
    look(&rt, HaspFeed::check, &rows);
    look(
        &rt,
        HaspFeed::check,
        &[(&[], Some(0)), (&[65], Some(1)), (&[0, 0, 0], Some(3))],
    );
}

#[test]
fn marks_and_prices(rt: HostRuntime) {
    look(
        &rt,
        HaspFeed::check,
        &[
            (&[1, 1, 1, 1_000_000, -1_000_000, 0, 0], None),
            (&[1, 1, 0, 0, 0, 0, 0], None),
            (&[1, 1, 2, 0, 0, 0, 0], Some(2)),
            (&[1, 1, -1, 1_000_001, 0, 0, 0], Some(2)),
            (&[1, 1, 0, 1_000_001, 0, 0, 0], Some(3)),
            (&[1, 1, 1, 0, 0, 0, -1_000_001], Some(6)),
            (&[1, 1, 1, 0, 0, 0, 0, 0, 0, 0, 0, 0, 0, 0, 0], Some(15)),
        ],
    );
    look(
        &rt,
        DispatchFeed::check,
        &[
            (
                &[1, 1, 1, 1_000_000, 0, 0, 0, 0, 0, 0, 0, 0, 0, 0, -1_000_000],
                None,
            ),
            (
                &[1, 1, 1, 0, 0, 0, 0, 0, 0, 0, 0, 0, 0, 0, 1_000_001],
                Some(14),
            ),
            (&[1, 1, 2, 0, 0, 0, 0, 0, 0, 0, 0, 0, 0, 0, 0], Some(2)),
        ],
    );
}

const HIGHEST: [i32; 15] = [
    1, 1, 1, 1_000_000, 1_000_000, 1_000_000, 1_000_000, 1_000_000, 1_000_000, 1_000_000,
    1_000_000, 1_000_000, 1_000_000, 1_000_000, 1_000_000,
];

#[test]
fn highest_and_lowest_averages(rt: HostRuntime) {
    averages(
        &rt,
        &mut DispatchFeed::over(&HIGHEST),
        &[(1, 1, 12_000_000)],
    );
    averages(
        &rt,
        &mut HaspFeed::over(&[1, 1, 1, -1_000_000, -1_000_000, -1_000_000, -1_000_000]),
        &[(1, 1, -12_000_000)],
    );
    averages(
        &rt,
        &mut DispatchFeed::over(&[1, 1, 1, 1, 2, 3, 4, 5, 6, 7, 8, 9, 10, 11, 12]),
        &[(1, 1, 78)],
    );
    averages(
        &rt,
        &mut HaspFeed::over(&[1, 1, 1, 4_000, 4_100, 4_200, 4_301]),
        &[(1, 1, 49_803)],
    );
}

/// Two locations and three hours; hour 2 of location 1 is not published; a price is 100 × its cell + its interval, both from 0.
const SIX: [i32; 32] = [
    2, 3, 1, 0, 1, 1, 1, 1, 0, 1, 2, 3, 100, 101, 102, 103, 200, 201, 202, 203, 300, 301, 302, 303,
    400, 401, 402, 403, 500, 501, 502, 503,
];

const OUTSIDE: [(i64, i64, u8); 9] = [
    (1, 2, 2),
    (0, 1, 1),
    (3, 1, 1),
    (1, 0, 1),
    (2, 4, 1),
    (i64::MIN, 1, 1),
    (i64::MAX, 1, 1),
    (1, i64::MIN, 1),
    (1, i64::MAX, 1),
];

#[test]
fn location_after_location(rt: HostRuntime) -> Result<(), Fail> {
    let mut feed = HaspFeed::open(&SIX)?;
    let sizes = feed.sizes();
    assert_eq!(rt; (sizes.rows, sizes.columns), (2, 3));
    assert_eq!(rt; sizes.cell(2, 3), Some(5));
    assert_eq!(rt; sizes.cell(2, 4), None);
    averages(
        &rt,
        &mut feed,
        &[(1, 1, 18), (1, 3, 2_418), (2, 1, 3_618), (2, 3, 6_018)],
    );
    lacks(&rt, &mut feed, &OUTSIDE)
}

#[test]
fn a_list_that_does_not_pass(rt: HostRuntime) -> Result<(), Fail> {
    is_refused(&rt, rt.alloc(), HaspFeed::open(&[65]), "R 1 1")?;
    lacks(&rt, &mut HaspFeed::over(&[]), &[(1, 1, 1)])?;
    lacks(&rt, &mut HaspFeed::over(&[0, 0]), &[(1, 1, 1)])?;
    lacks(
        &rt,
        &mut HaspFeed::over(&[1, 1, 2, 0, 0, 0, 0]),
        &[(1, 1, 1)],
    )?;
    lacks(
        &rt,
        &mut DispatchFeed::over(&[1, 1, 1, 0, 0, 0, 0]),
        &[(1, 1, 1)],
    )
}

#[test]
fn counts_its_questions(rt: HostRuntime) -> Result<(), Fail> {
    let mut counting = Counting::over(HaspFeed::over(&SIX));
    assert_eq!(rt; counting.asked(), 0);
    averages(&rt, &mut counting, &[(2, 1, 3_618), (2, 1, 3_618)]);
    let outside = average_or_fault(&mut counting, 9, 1);
    is_refused(&rt, rt.alloc(), outside, "R 14 9")?;
    assert_eq!(rt; counting.asked(), 3);
    Ok(())
}
