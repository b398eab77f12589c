//! Equation systems: what is read back and what is refused, and the systems of the four forms.
use fx_eqs::{Eqs, EqsFault, Source, Term};
use fx_nums::{Den, Frac};
use fx_textbook::{Space, cascade_system, ladder_system, space_system, transfer_system};
use std::alloc::{AllocError, Global};
use std::test::Fail;

fn tenths(num: i64) -> Frac {
    Frac::new(num, Den::Ten(1)).unwrap_or(Frac::zero())
}

fn term(row: u8, num: i64, from: Source, lag: u8) -> Term {
    Term {
        row,
        coef: tenths(num),
        from,
        lag,
    }
}

// Rows, inputs, terms, and rows of the net.
type Counts = [usize; 4];

fn counts(system: &Eqs) -> Counts {
    [
        system.rows(),
        system.inputs(),
        system.terms().len(),
        system.net_rows(),
    ]
}

// The numerators of the terms, and the lags.
fn terms_of(system: &Eqs) -> [(i64, u8); 4] {
    let mut all = [(0, 0); 4];
    for (place, term) in all.iter_mut().zip(system.terms()) {
        *place = (term.coef.num(), term.lag);
    }
    all
}

// y0 = u0(k-2) - 0.5 y0(k-1), and y1 = y0 + 0.3 y1(k-3); a coefficient 0 may stand anywhere.
fn two_rows() -> [Term; 5] {
    [
        term(0, 10, Source::In(0), 2),
        term(0, -5, Source::Row(0), 1),
        term(9, 0, Source::In(9), 99),
        term(1, 10, Source::Row(0), 0),
        term(1, 3, Source::Row(1), 3),
    ]
}

// What is read of the copy of a system.
fn read_back(alloc: Global) -> Option<(Counts, [(i64, u8); 4])> {
    let system = Eqs::build(alloc, 2, 1, &two_rows(), &[1, 0]).ok()?;
    let copied = system.copy(alloc).ok()?;
    Some((counts(&copied), terms_of(&copied)))
}

#[test]
fn a_system_is_read_back(rt: HostRuntime) {
    let wanted = ([2, 1, 4, 6], [(10, 2), (-5, 1), (10, 0), (3, 3)]);
    assert!(rt; read_back(rt.alloc()) == Some(wanted));
}

// The fault of a second term of two rows, where the first is y1 = y0.
fn refusal(alloc: Global, second: Term) -> Option<EqsFault> {
    let terms = [term(1, 10, Source::Row(0), 0), second];
    Eqs::build(alloc, 2, 1, &terms, &[0]).err()
}

#[test]
fn terms_are_refused(rt: HostRuntime) {
    let alloc = rt.alloc();
    let late = refusal(alloc, term(1, 10, Source::Row(1), 13));
    assert!(rt; matches!(late, Some(EqsFault::LagRange(1))));
    let now = refusal(alloc, term(1, 10, Source::Row(1), 0));
    assert!(rt; matches!(now, Some(EqsFault::ForwardNow(1))));
    let twice = refusal(alloc, term(1, 3, Source::Row(0), 0));
    assert!(rt; matches!(twice, Some(EqsFault::Twice(1))));
}

// How many rows and terms a system has.
fn sizes(system: &Eqs) -> [usize; 2] {
    [system.rows(), system.terms().len()]
}

// The systems of a transfer function and of a cascade of two sections.
fn recursions(alloc: Global) -> Result<[[usize; 2]; 2], AllocError> {
    let half = tenths(5);
    let transfer = transfer_system(alloc, &[half; 3], &[half; 2])?;
    let cascade = cascade_system(alloc, &[half; 12])?;
    Ok([sizes(&transfer), sizes(&cascade)])
}

// The systems of two states with two outputs, and of a lattice with two reflections.
fn chains(alloc: Global) -> Result<[[usize; 2]; 2], AllocError> {
    let half = tenths(5);
    let two_states = Space {
        n: 2,
        m: 1,
        p: 2,
        a: &[half; 4],
        b: &[half; 2],
        c: &[half; 4],
        d: &[half; 2],
    };
    let space = space_system(alloc, &two_states)?;
    let ladder = ladder_system(alloc, &[half; 2], &[half; 3])?;
    Ok([sizes(&space), sizes(&ladder)])
}

#[test]
fn each_form_has_its_system(rt: HostRuntime) -> Result<(), Fail> {
    assert!(rt; recursions(rt.alloc())? == [[1, 4], [2, 10]]);
    assert!(rt; chains(rt.alloc())? == [[4, 12], [5, 11]]);
    Ok(())
}
