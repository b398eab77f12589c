//! Intervals: what encloses a fraction, sums, products and quotients.
ghost use Rattle.std.specs.Prelude.{◌≤◌, IfSome};
ghost use Rattle.fx_nums.specs.Interval.{IntervalFits};
ghost use Rattle.fx_nums.specs.declared.limits.TheConstants.{INTERVAL_BITS};

use fx_nums::{Den, FACTOR_BITS, Frac, INTERVAL_BITS, Iv, OPERAND_BITS, SUMMAND_BITS};

// A low end and a high one, times 2^64.
type Ends = (i128, i128);

fn ends(interval: Iv) -> Ends {
    (interval.lo(), interval.hi())
}

// The interval with these ends, where both magnitudes are below 2^bits.
fn between(given: Ends, bits: u32) -> Option<Iv>
    requires { bits ≤ INTERVAL_BITS }
    ensures { IfSome result (λ v. IntervalFits v bits) }
{
    let limit = 1u128 << INTERVAL_BITS;
    let (low, high) = given;
    if low.unsigned_abs() >= limit || high.unsigned_abs() >= limit {
        return None;
    }
    let interval = Iv::point(low).hull(Iv::point(high));
    if interval.fits(bits) {
        Some(interval)
    } else {
        None
    }
}

// What encloses a fraction.
fn enclosure(num: i64, den: Den) -> Option<Ends> {
    Some(ends(Iv::of(Frac::new(num, den)?)))
}

// Whether they are as the table says.
fn fractions_are_enclosed_hold() -> bool {
    let whole = 309484991374600995015229440;
    let table = [
        (
            -1,
            Den::Ten(1),
            (-1844674407370955162, -1844674407370955161),
        ),
        (1, Den::Ten(1), (1844674407370955161, 1844674407370955162)),
        (3, Den::Two(1), (27670116110564327424, 27670116110564327424)),
        (-1, Den::Two(62), (-4, -4)),
        (16777215, Den::Ten(0), (whole, whole)),
    ];
    for (num, den, wanted) in table {
        if enclosure(num, den) != Some(wanted) {
            return false;
        }
    }
    true
}

#[test]
fn fractions_are_enclosed(rt: HostRuntime) {
    assert!(rt; fractions_are_enclosed_hold());
}

// The greatest and the least magnitude, the width, and the ends of the opposite.
fn measures(given: Ends) -> Option<(i128, i128, i128, Ends)> {
    let interval = between(given, INTERVAL_BITS)?;
    Some((
        interval.magnitude(),
        interval.low_magnitude(),
        interval.width(),
        ends(interval.neg()),
    ))
}

// Whether they are as the table says.
fn intervals_are_measured_hold() -> bool {
    let table = [
        ((-8, -8), (8, 8, 0, (8, 8))),
        ((3, 5), (5, 3, 2, (-5, -3))),
        ((-9, -4), (9, 4, 5, (4, 9))),
        ((-9, 4), (9, 0, 13, (-4, 9))),
    ];
    for (given, wanted) in table {
        if measures(given) != Some(wanted) {
            return false;
        }
    }
    if !(Iv::point(-8).fits(4) && !Iv::point(-8).fits(3)) {
        return false;
    }
    true
}

#[test]
fn intervals_are_measured(rt: HostRuntime) {
    assert!(rt; intervals_are_measured_hold());
}

fn sum(a: Ends, b: Ends) -> Option<Ends> {
    let (a, b) = (between(a, SUMMAND_BITS)?, between(b, SUMMAND_BITS)?);
    Some(ends(a.add(b)))
}

fn product(a: Ends, b: Ends) -> Option<Ends> {
    let (a, b) = (between(a, OPERAND_BITS)?, between(b, OPERAND_BITS)?);
    Some(ends(a.times(b)?))
}

fn quotient(a: Ends, b: Ends) -> Option<Ends> {
    let (a, b) = (between(a, OPERAND_BITS)?, between(b, OPERAND_BITS)?);
    Some(ends(a.divide(b)?))
}

fn scaled(a: Ends, num: i64, den: Den) -> Option<Ends> {
    let c = Frac::new(num, den)?;
    Some(ends(between(a, FACTOR_BITS)?.scale(c)))
}

#[test]
fn sums_and_multiples(rt: HostRuntime) {
    assert!(rt;
        sum((-1844674407370955162, -1844674407370955161), (-5, -5))
            == Some((-1844674407370955167, -1844674407370955166))
    );
    assert!(rt;
        scaled((-(3 << 64) - 1, (2 << 64) + 1), -7, Den::Ten(1))
            == Some((-25825441703193372264, 38738162554790058395))
    );
}

// Whether they are as the table says.
fn products_of_intervals_hold() -> bool {
    let one: i128 = 1 << 64;
    let table = [
        ((one + 1, one + 1), (one, one), Some((one, one + (1 << 32)))),
        (
            (-3 * one - 5, 2 * one),
            (-7 * one, 6148914691236517205),
            Some((-258254417031933722624, 387381625577965355008)),
        ),
        ((1 << 87, 1 << 87), (1 << 65, 1 << 65), None),
    ];
    for (a, b, wanted) in table {
        if product(a, b) != wanted {
            return false;
        }
    }
    true
}

#[test]
fn products_of_intervals(rt: HostRuntime) {
    assert!(rt; products_of_intervals_hold());
}

// Whether they are as the table says.
fn quotients_of_intervals_hold() -> bool {
    let one: i128 = 1 << 64;
    let table = [
        (
            (-3 * one, 5 * one + 1),
            (-4 * one - 1, -6148914691236517206),
            Some((-276701161170067783699, 166020696702040670218)),
        ),
        ((one, one), (1, 1), None),
        ((1 << 87, 1 << 87), (1 << 60, 1 << 60), None),
    ];
    for (a, b, wanted) in table {
        if quotient(a, b) != wanted {
            return false;
        }
    }
    true
}

#[test]
fn quotients_of_intervals(rt: HostRuntime) {
    assert!(rt; quotients_of_intervals_hold());
}
