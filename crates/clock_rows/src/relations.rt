//! Relations whose values come from outside: a script compared the edges of both clocks pair by pair.
use clock_tree::relation;
use timing_types::Relation;

const LAST_TIME: i64 = 2_000_000_000_000;

const LAST_PERIOD: i64 = 1_000_000_000_000;

// An edge and the period of its clock, in femtoseconds: A has a period of 10 ns, B of 15 ns.
const A_RISE: (i64, i64) = (0, 10_000_000);

const A_FALL: (i64, i64) = (5_000_000, 10_000_000);

const B_RISE: (i64, i64) = (0, 15_000_000);

const B_FALL: (i64, i64) = (7_500_000, 15_000_000);

/// The relation of two edges, each with the period of its clock, where both are in range.
fn relation_of(launch: (i64, i64), capture: (i64, i64)) -> Option<Relation> {
    let ((a, p), (b, q)) = (launch, capture);
    if a < 0 || a > LAST_TIME || p < 1 || p > LAST_PERIOD {
        return None;
    }
    if b < 0 || b > LAST_TIME || q < 1 || q > LAST_PERIOD {
        return None;
    }
    Some(relation(a, p, b, q))
}

#[test]
fn relations_of_two_clocks(rt: HostRuntime) {
    for (launch, capture, setup, hold) in [
        (A_RISE, A_RISE, 10_000_000, 0),
        (A_RISE, A_FALL, 5_000_000, -5_000_000),
        (A_RISE, B_RISE, 5_000_000, 0),
        (A_RISE, B_FALL, 2_500_000, -2_500_000),
        (A_FALL, A_RISE, 5_000_000, -5_000_000),
        (A_FALL, A_FALL, 10_000_000, 0),
        (A_FALL, B_RISE, 5_000_000, 0),
        (A_FALL, B_FALL, 2_500_000, -2_500_000),
        (B_RISE, A_RISE, 5_000_000, 0),
        (B_RISE, A_FALL, 5_000_000, 0),
        (B_RISE, B_RISE, 15_000_000, 0),
        (B_RISE, B_FALL, 7_500_000, -7_500_000),
        (B_FALL, A_RISE, 2_500_000, -2_500_000),
        (B_FALL, A_FALL, 2_500_000, -2_500_000),
        (B_FALL, B_RISE, 7_500_000, -7_500_000),
        (B_FALL, B_FALL, 15_000_000, 0),
    ] {
        let wanted = Some(Relation { setup, hold });
        assert_eq!(rt;
            relation_of(launch, capture),
            wanted,
            "{launch:?} to {capture:?}"
        );
    }
}

#[test]
fn relations_of_small_and_of_great_periods(rt: HostRuntime) {
    for (launch, capture, setup, hold) in [
        ((0, 4), (0, 6), 2, 0),
        ((2, 4), (1, 6), 1, -1),
        ((0, 2), (1, 4), 1, -1),
        ((0, 1), (0, 1), 1, 0),
        ((0, 3), (0, 3), 3, 0),
        ((1, 3), (0, 3), 2, -1),
        // an edge and itself
        ((7, 12), (7, 12), 12, 0),
        // periods without a common divisor
        ((5, 7), (0, 11), 1, 0),
        ((3, 997), (500, 1_009), 1, 0),
        ((1, 999_999_999_989), (LAST_TIME, LAST_PERIOD), 1, 0),
        // the ends of the ranges
        ((0, LAST_PERIOD), (LAST_TIME, LAST_PERIOD), LAST_PERIOD, 0),
        ((1, LAST_PERIOD), (0, LAST_PERIOD), 999_999_999_999, -1),
        (
            (LAST_TIME, LAST_PERIOD),
            (1, 750_000_000_000),
            1,
            -249_999_999_999,
        ),
    ] {
        let wanted = Some(Relation { setup, hold });
        assert_eq!(rt;
            relation_of(launch, capture),
            wanted,
            "{launch:?} to {capture:?}"
        );
    }
}
