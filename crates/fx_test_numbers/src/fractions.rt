//! Fractions: their limits and their parts.
use fx_nums::{Den, Frac};

// The numerator and the denominator.
fn parts(c: Frac) -> (i64, u128) {
    (c.num(), c.den().value())
}

// Of the fraction, and of that with the other sign, where it is in range.
fn both_signs(num: i64, den: Den) -> Option<((i64, u128), (i64, u128))> {
    let c = Frac::new(num, den)?;
    Some((parts(c), parts(c.neg())))
}

// Whether they are as the table says.
fn fractions_in_range_hold() -> bool {
    let ten_to_28 = 10000000000000000000000000000;
    let table = [
        (16777215, Den::Ten(0), 1),
        (4611686018427387903, Den::Two(62), 4611686018427387904),
        (-1, Den::Ten(28), ten_to_28),
        (0, Den::Ten(1), 10),
    ];
    for (num, den, value) in table {
        if both_signs(num, den) != Some(((num, value), (-num, value))) {
            return false;
        }
    }
    true
}

#[test]
fn fractions_in_range(rt: HostRuntime) {
    assert!(rt; fractions_in_range_hold());
}

// Whether they are as the table says.
fn fractions_out_of_range_hold() -> bool {
    let table = [
        (16777216, Den::Ten(0)),
        (-16777216, Den::Ten(0)),
        (4611686018427387904, Den::Two(62)),
        (1, Den::Two(63)),
        (1, Den::Ten(29)),
    ];
    for (num, den) in table {
        if !Frac::new(num, den).is_none() {
            return false;
        }
    }
    true
}

#[test]
fn fractions_out_of_range(rt: HostRuntime) {
    assert!(rt; fractions_out_of_range_hold());
}

// Whether they are as the table says.
fn denominators_hold() -> bool {
    let table = [
        (Den::Two(62), true),
        (Den::Ten(28), true),
        (Den::Two(63), false),
        (Den::Ten(29), false),
    ];
    for (den, fits) in table {
        if den.fits() != fits {
            return false;
        }
    }
    true
}

#[test]
fn denominators(rt: HostRuntime) {
    assert!(rt; denominators_hold());
}

// Whether they are as the table says.
fn zero_and_one_hold() -> bool {
    if (parts(Frac::zero()), parts(Frac::one())) != ((0, 1), (1, 1)) {
        return false;
    }
    let table = [
        (Frac::zero(), true, false),
        (Frac::one(), false, true),
        (Frac::one().neg(), false, false),
    ];
    for (c, zero, one) in table {
        if (c.is_zero(), c.is_one()) != (zero, one) {
            return false;
        }
    }
    true
}

#[test]
fn zero_and_one(rt: HostRuntime) {
    assert!(rt; zero_and_one_hold());
}
