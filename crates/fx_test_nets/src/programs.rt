//! Programs: what is read back and what is refused, and the rows of a program in a net.
ghost use Rattle.std.specs.Prelude.{◌≡◌};

use fx_code::{CodeTerm, LimitOf, Program, ProgramFault, Read, put_term};
use fx_eqs::Mode;
use fx_net::Net;
use std::alloc::Global;

/// A term without a shift to the left.
pub fn term(coef: i64, from: Read) -> CodeTerm {
    CodeTerm {
        coef,
        from,
        left: 0,
    }
}

/// Adds a row to a program.
pub fn add(
    program: &mut Program,
    width: u8,
    shift: u8,
    mode: Mode,
    terms: &[CodeTerm],
) -> Result<(), ProgramFault>
    ensures inputs { program.new.inputs ≡ program.old.inputs }
    ensures outputs { program.new.outputs ≡ program.old.outputs }
{
    program.add_row(width, shift, mode, terms)
}

// Row 0 is half of row 1 of the moment before and the input, row 1 keeps it.
fn two_rows(alloc: Global) -> Option<Program> {
    let input = CodeTerm {
        coef: 1,
        from: Read::In(0),
        left: 1,
    };
    let mut program = Program::start(alloc, 32, &[16]).ok()?;
    add(
        &mut program,
        16,
        1,
        Mode::Nearest,
        &[term(1, Read::Old(1)), input],
    )
    .ok()?;
    add(&mut program, 12, 0, Mode::Floor, &[term(1, Read::Now(0))]).ok()?;
    program.add_output(1).ok()?;
    Some(program)
}

// The width, the shift, the constant, the class and the count of terms of a row.
fn row_of(program: &Program, i: usize) -> Option<(u8, u8, i64, u8, usize)> {
    if i >= program.rows() {
        return None;
    }
    Some((
        program.width(i),
        program.shift(i),
        program.constant(i),
        program.class(i),
        program.terms(i).len(),
    ))
}

// The accumulator, the width of the first input, and the counts of inputs, rows and outputs.
fn head_of(program: &Program) -> Option<(u8, u8, [usize; 3])> {
    if program.inputs() < 1 {
        return None;
    }
    Some((
        program.accumulator(),
        program.input_width(0),
        [program.inputs(), program.rows(), program.outputs().len()],
    ))
}

// The two rows and the head of the copy of a program, and the weight of the term that is shifted to the left.
fn read_back(alloc: Global) -> Option<[(u8, u8, i64, u8, usize); 2]> {
    let copy = two_rows(alloc)?.copy(alloc).ok()?;
    Some([row_of(&copy, 0)?, row_of(&copy, 1)?])
}

fn copied_head(alloc: Global) -> Option<(u8, u8, [usize; 3])> {
    head_of(&two_rows(alloc)?.copy(alloc).ok()?)
}

#[test]
fn a_program_is_read_back(rt: HostRuntime) {
    assert!(rt; read_back(rt.alloc()) == Some([(16, 1, 1, 1, 2), (12, 0, 0, 0, 1)]));
    assert!(rt; copied_head(rt.alloc()) == Some((32, 16, [1, 2, 1])));
}

// The fault of one row in a program with one input and no rows.
fn row_refused(alloc: Global, width: u8, shift: u8, terms: &[CodeTerm]) -> Option<ProgramFault> {
    let mut program = Program::start(alloc, 32, &[16]).ok()?;
    add(&mut program, width, shift, Mode::Nearest, terms).err()
}

#[test]
fn rows_are_refused(rt: HostRuntime) {
    let alloc = rt.alloc();
    let input = term(1, Read::In(0));
    let wide = row_refused(alloc, 33, 0, &[]);
    assert!(rt; matches!(wide, Some(ProgramFault::Limit(LimitOf::Width, 33))));
    let shifted = row_refused(alloc, 16, 32, &[]);
    assert!(rt; matches!(shifted, Some(ProgramFault::Limit(LimitOf::Shift, 32))));
    let twice = row_refused(alloc, 16, 0, &[input, input]);
    assert!(rt; matches!(twice, Some(ProgramFault::Twice(0))));
    let itself = row_refused(alloc, 16, 0, &[term(1, Read::Now(0))]);
    assert!(rt; matches!(itself, Some(ProgramFault::Order(0))));
}

#[test]
fn starts_are_refused(rt: HostRuntime) {
    let odd = Program::start(rt.alloc(), 20, &[16]).err();
    assert!(rt; matches!(odd, Some(ProgramFault::Limit(LimitOf::Accumulator, 20))));
    let many = Program::start(rt.alloc(), 32, &[8; 5]).err();
    assert!(rt; matches!(many, Some(ProgramFault::Limit(LimitOf::Inputs, 5))));
}

// Whether a program is whole with a row that reads the second row, then with its output, then with the second row.
fn wholeness(alloc: Global) -> Option<[bool; 3]> {
    let mut program = Program::start(alloc, 32, &[16]).ok()?;
    add(&mut program, 16, 0, Mode::Nearest, &[term(1, Read::Old(1))]).ok()?;
    let row_alone = program.is_whole();
    program.add_output(0).ok()?;
    let put_out = program.is_whole();
    add(&mut program, 16, 0, Mode::Nearest, &[]).ok()?;
    Some([row_alone, put_out, program.is_whole()])
}

#[test]
fn programs_get_whole(rt: HostRuntime) {
    assert!(rt; wholeness(rt.alloc()) == Some([false, false, true]));
}

// The rows of a program in a net from row 2 on: numerators over powers of two, and classes.
fn rows_in_net(alloc: Global) -> Option<([(i64, u128); 3], [u8; 2])> {
    let program = two_rows(alloc)?;
    let mut net: Net<4> = Net::new(alloc).ok()?;
    if !program.is_whole() {
        return None;
    }
    if program.rows() > 2 {
        return None;
    }
    net.clear();
    program.put_net(&mut net, 2);
    let read = [net.old(2, 3), net.input(2, 0), net.now(3, 2)];
    Some((
        [
            (read[0].num(), read[0].den().value()),
            (read[1].num(), read[1].den().value()),
            (read[2].num(), read[2].den().value()),
        ],
        [net.halves(2), net.halves(3)],
    ))
}

// A term of row 1 in a net from row 2 on.
fn term_in_net(alloc: Global) -> Option<(i64, u128)> {
    let mut net: Net<4> = Net::new(alloc).ok()?;
    let tripled = CodeTerm {
        coef: 3,
        from: Read::Now(0),
        left: 0,
    };
    put_term(&mut net, 2, 1, 1, &tripled);
    let read = net.now(3, 2);
    Some((read.num(), read.den().value()))
}

#[test]
fn programs_in_nets(rt: HostRuntime) {
    assert!(rt; rows_in_net(rt.alloc()) == Some(([(1, 2), (2, 2), (1, 1)], [1, 0])));
    assert!(rt; term_in_net(rt.alloc()) == Some((3, 2)));
}
