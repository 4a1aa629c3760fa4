// Edges of the pick: repeated elements, ranks outside the list, both orders.
use rank::pick::pick;
use rank::spread::DatedSpread;
use rank::standing::Standing;

// The arrays are the tests' data.

/// Spreads of one hour with these values: equal values are equal elements.
fn spreads(values: [i64; 3]) -> [DatedSpread; 3] {
    values.map(|value| DatedSpread { value, hour: 1 })
}

/// The value of the spread of a rank.
fn value_at(items: &[DatedSpread], rank: usize) -> Option<i64> {
    pick(items, rank).map(|spread| spread.value)
}

#[test]
fn repeated_elements_leave_a_rank_empty(rt: HostRuntime) {
    let items = spreads([5, 5, 9]);
    assert_eq!(rt; value_at(&items, 1), Some(5));
    assert_eq!(rt; value_at(&items, 2), None);
    assert_eq!(rt; value_at(&items, 3), Some(9));
}

#[test]
fn a_rank_outside_the_list_has_none(rt: HostRuntime) {
    let items = spreads([9, -5, 2]);
    assert_eq!(rt; value_at(&items, 0), None);
    assert_eq!(rt; value_at(&items, 1), Some(-5));
    assert_eq!(rt; value_at(&items, 3), Some(9));
    assert_eq!(rt; value_at(&items, 4), None);
    assert_eq!(rt; value_at(&items, usize::MAX), None);
    assert_eq!(rt; value_at(&[], 1), None);
}

#[test]
fn equal_spreads_go_by_hour(rt: HostRuntime) {
    let items = [
        DatedSpread { value: 3, hour: 7 },
        DatedSpread { value: 3, hour: 2 },
    ];
    let first = pick(&items, 1).map(|spread| spread.hour);
    assert_eq!(rt; first, Some(2));
}

#[test]
fn accounts_go_by_cash_then_credit_then_number(rt: HostRuntime) {
    let items = [
        Standing {
            cash: 10,
            available: 900,
            number: 1,
        },
        Standing {
            cash: 20,
            available: 5,
            number: 2,
        },
        Standing {
            cash: 10,
            available: 901,
            number: 3,
        },
        Standing {
            cash: 10,
            available: 900,
            number: 4,
        },
    ];
    for (rank, number) in [(1, 2), (2, 3), (3, 1), (4, 4)] {
        let account = pick(&items, rank).map(|standing| standing.number);
        assert_eq!(rt; account, Some(number));
    }
}
