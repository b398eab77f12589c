//! Products of numbers with fractions, rounded down and up.
use fx_nums::{Den, FACTOR_BITS, Frac, Iv, ceil_mul, floor_mul, mul_ends};
use fx_ratio::{Ratio, Ratios, Span};
use std::alloc::{AllocError, Global};
use std::test::Fail;

// The product by each call that rounds it both ways.
fn products(p: i128, num: i64, den: Den) -> Option<[(i128, i128); 4]> {
    let c = Frac::new(num, den)?;
    if p.unsigned_abs() >= 1 << FACTOR_BITS {
        return None;
    }
    let multiple = Iv::multiple(p, c);
    Some([
        mul_ends(p, c),
        (floor_mul(p, c), ceil_mul(p, c)),
        (multiple.lo(), multiple.hi()),
        Ratio::new(c).mul_ends(p),
    ])
}

// Whether they are as the table says.
fn products_are_rounded_both_ways_hold() -> bool {
    // The product of the first is 2^140 and more, so that it is widened.
    let table = [
        (
            (1 << 80) + 1,
            (1 << 60, Den::Two(40)),
            (1 << 100, (1 << 100) + (1 << 52)),
        ),
        (
            10000000000000000000000000000,
            (-2305843009213693951, Den::Ten(17)),
            (
                -230584300921369395195705032704,
                -230584300921369395092625817600,
            ),
        ),
        (
            -10000000000000000000000001,
            (123456789, Den::Ten(3)),
            (
                -1234567890000000000000000123457,
                -1234567890000000000000000123456,
            ),
        ),
        (-1, (1, Den::Ten(1)), (-1, 0)),
        (25, (1, Den::Ten(1)), (2, 3)),
        (30, (1, Den::Ten(1)), (3, 3)),
        (5, (-3, Den::Two(1)), (-8, -7)),
        (10, (-7, Den::Ten(1)), (-7, -7)),
        (
            1 << 63,
            (333_333_333_333_333_333, Den::Ten(18)),
            (3_074_457_345_618_258_599, 3_074_457_345_618_258_600),
        ),
        (
            1 << 63,
            (-3_333_333_333_333_333_333, Den::Ten(19)),
            (-3_074_457_345_618_258_603, -3_074_457_345_618_258_602),
        ),
    ];
    for (p, (num, den), ends) in table {
        if products(p, num, den) != Some([ends; 4]) {
            return false;
        }
    }
    true
}

#[test]
fn products_are_rounded_both_ways(rt: HostRuntime) {
    assert!(rt; products_are_rounded_both_ways_hold());
}

// The ends and the width of a span.
fn measures(span: Span) -> (i128, i128, i128) {
    (span.lo(), span.hi(), span.width())
}

// Whether the spans of multiples of a tenth are these.
fn spans_hold(tenth: Ratio) -> bool {
    let narrow = tenth.multiple(25);
    measures(narrow) == (2, 3, 1)
        && measures(narrow.neg()) == (-3, -2, 1)
        && measures(Span::point(-7).add(Span::point(9))) == (2, 2, 0)
        && (narrow.interval().lo(), narrow.interval().hi()) == (2, 3)
        && tenth.multiple(0).is_zero()
        && !tenth.multiple(1).is_zero()
        && tenth.fraction().num() == 1
}

#[test]
fn spans(rt: HostRuntime) {
    let tenth = Frac::new(1, Den::Ten(1)).unwrap_or(Frac::one());
    assert!(rt; spans_hold(Ratio::new(tenth)));
}

// The products of numbers with coefficients over ten that are kept by place.
fn kept_products(
    alloc: Global,
    table: &[(usize, i128, i64)],
) -> Result<Vec<(i128, i128)>, AllocError> {
    let mut ratios = Ratios::new(alloc, 2)?;
    let mut ends = Vec::new(alloc);
    for (place, w, tenths) in table {
        let coef = Frac::new(*tenths, Den::Ten(1)).unwrap_or(Frac::zero());
        if w.unsigned_abs() < 1 << FACTOR_BITS {
            let product = ratios.multiple(*place, *w, coef);
            ends.push((product.lo(), product.hi()))?;
        }
    }
    Ok(ends)
}

#[test]
fn each_place_has_its_coefficient(rt: HostRuntime) -> Result<(), Fail> {
    // The third place has no room.
    let table = [
        (0, 7, 30),
        (1, 25, 1),
        (0, 7, 30),
        (0, 30, 1),
        (2, 40, 1),
        (1, 1 << 80, 5),
    ];
    let wanted = [
        (21, 21),
        (2, 3),
        (21, 21),
        (3, 3),
        (4, 4),
        (1 << 79, 1 << 79),
    ];
    assert!(rt; kept_products(rt.alloc(), &table)?.as_slice() == wanted.as_slice());
    Ok(())
}
