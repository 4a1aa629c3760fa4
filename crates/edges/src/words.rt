// Edges of the market's words: the day's bounds, letters, a refusal and a side as text.
use crate::shown::{is_refused, reads};
use market::day::Day;
use market::fault::{Asked, Cause, Fault, PolicyFault};
use market::words::{Class, Layer, Period, Side, UnknownLetter};
use std::alloc::Global;
use std::process::Abort;
use std::test::Fail;

/// Each pair of hours and month makes its day.
fn passes(rt: &impl Abort, days: &[(i64, i64)]) -> Result<(), Fail> {
    for (hours, month) in days {
        let day = Day::check(*hours, *month)?;
        assert_eq!(rt; day.hours(), *hours);
        assert_eq!(rt; day.month(), *month);
    }
    Ok(())
}

/// Each pair of hours and month is refused at its position.
fn refused(rt: &impl Abort, heap: Global, days: &[(i64, i64, &str)]) -> Result<(), Fail> {
    for (hours, month, text) in days {
        is_refused(rt, heap, Day::check(*hours, *month), text)?;
    }
    Ok(())
}

#[test]
fn a_day_has_23_to_25_hours_and_a_month_to_600(rt: HostRuntime) -> Result<(), Fail> {
    passes(&rt, &[(23, 0), (24, 12), (25, 600)])?;
    refused(
        &rt,
        rt.alloc(),
        &[
            (22, 0, "B 1 1"),
            (26, 0, "B 1 1"),
            (24, -1, "B 1 2"),
            (24, 601, "B 1 2"),
            (0, 601, "B 1 1"),
            (i64::MIN, i64::MAX, "B 1 1"),
            (23, i64::MIN, "B 1 2"),
        ],
    )
}

#[test]
fn letters_are_upper_case_and_come_back(rt: HostRuntime) -> Result<(), Fail> {
    for letter in ['N', 'A', 'L', 'T', 'I'] {
        let class = Class::try_from(letter)?;
        assert_eq!(rt; char::from(class), letter);
    }
    assert_eq!(rt; Class::try_from('n'), Err(UnknownLetter('n')));
    assert_eq!(rt; Class::try_from('S'), Err(UnknownLetter('S')));
    assert_eq!(rt; Side::try_from('S'), Ok(Side::Supply));
    assert_eq!(rt; Side::try_from('s'), Err(UnknownLetter('s')));
    assert_eq!(rt; Period::try_from('O'), Ok(Period::OffPeak));
    assert_eq!(rt; Period::try_from('0'), Err(UnknownLetter('0')));
    assert_eq!(rt; Layer::try_from('R'), Ok(Layer::RealTime));
    reads(
        &rt,
        rt.alloc(),
        UnknownLetter('s'),
        "no case has the letter s",
    )
}

#[test]
fn a_refusal_is_its_layer_number_and_place(rt: HostRuntime) -> Result<(), Fail> {
    let heap = rt.alloc();
    reads(&rt, heap, Fault::Unknown(-12345678901), "B 2 -12345678901")?;
    reads(&rt, heap, Fault::OverPosition(7), "B 12 7")?;
    let fault = PolicyFault {
        cause: Cause::Missing,
        location: 9,
    };
    reads(
        &rt,
        heap,
        Fault::NoPrice(Asked { asked: 4, fault }),
        "P 6 4",
    )?;
    reads(&rt, heap, fault, "cause 2 at location 9")?;
    reads(&rt, heap, Side::Demand, "demand")
}
