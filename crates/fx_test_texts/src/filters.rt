//! Filters of files and of sections.
ghost use Rattle.fx_files.specs.Plan.{PlanFits};
ghost use Rattle.std.specs.Prelude.{◌≡◌};

use fx_eqs::Mode;
use fx_files::{
    Filter, FilterFault, Form, InputFormat, Key, OutputFormat, Plan, Structure, filters_fit,
    read_filter,
};
use fx_nums::{Den, Frac};
use std::alloc::Global;
use std::process::Abort;
use std::test::Fail;

const WORKED: &str =
    "form = \"tf\"\nb = [\"0.5\"]\na = [\"1\"]\nrounding = \"floor\"\ninputs = [{ width = 16, bound = 100 }]\noutputs = [{ width = 16, error = \"1\" }]\naccumulator = 32\n";

// The width and the bound of an input.
fn input_parts(input: InputFormat) -> (u8, i64) {
    (input.width, input.bound)
}

// The row of an output, its width, its low position, and its error twice.
fn output_parts(output: OutputFormat) -> (u8, u8, i8, Frac, i128) {
    (
        output.row,
        output.width,
        output.low,
        output.error,
        output.target,
    )
}

// Whether rows round down.
fn is_floored(filter: &Filter) -> bool {
    matches!(filter.mode(), Mode::Floor)
}

// The coefficients at the key of a numerator, if the form has one.
fn numerator(filter: &Filter) -> Option<&[Frac]> {
    match filter.form() {
        Form::Tf => Some(filter.list(Key::B)),
        _ => None,
    }
}

fn check_worked(rt: &impl Abort, filter: &Filter) {
    assert_eq!(rt; filter.form().word(), "tf");
    assert_eq!(rt; filter.structure().word(), "df1");
    assert!(rt; is_floored(filter));
    assert_eq!(rt; filter.input_low(), 0);
    assert_eq!(rt; (filter.accumulator(), filter.word()), (32, 32));
    assert_eq!(rt; filter.guards(), [0, 4, 8].as_slice());
    assert_eq!(rt; filter.fractions(), [14, 20, 26].as_slice());
    assert_eq!(rt; filter.lengths(), [64, 256, 1024, 4096].as_slice());
    assert_eq!(rt; (filter.inputs().len(), filter.outputs().len()), (1, 1));
    assert_eq!(rt; (filter.eqs().rows(), filter.eqs().terms().len()), (1, 1));
    assert_eq!(rt; filter.coefficients().len(), 2);
}

#[test]
fn the_worked_file_is_read(rt: HostRuntime) -> Result<(), Fail> {
    let filter = read_filter(rt.alloc(), WORKED.as_bytes())
        .ok()
        .ok_or("read")?;
    check_worked(&rt, &filter);
    let copied = filter.copy(rt.alloc())?;
    check_worked(&rt, &copied);
    Ok(())
}

#[test]
fn ports_and_lists_are_read(rt: HostRuntime) -> Result<(), Fail> {
    let filter = read_filter(rt.alloc(), WORKED.as_bytes())
        .ok()
        .ok_or("read")?;
    assert_eq!(rt; input_parts(filter.input(0)), (16, 100));
    assert_eq!(rt; input_parts(filter.inputs()[0]), (16, 100));
    let output = (0, 16, 0, Frac::one(), 18446744073709551616);
    assert_eq!(rt; output_parts(filter.output(0)), output);
    assert_eq!(rt; output_parts(filter.outputs()[0]), output);
    let half = [Frac::new(5, Den::Ten(1)).ok_or("in range")?];
    assert_eq!(rt; numerator(&filter), Some(half.as_slice()));
    Ok(())
}

// The form, and the counts of rows, terms and coefficients.
fn counts(alloc: Global, lines: &str) -> Result<(&'static str, usize, usize, usize), FilterFault> {
    let text = format!(in alloc;
        "{lines}\ninputs = [{{ width = 16 }}]\noutputs = [{{ width = 16, error = \"1\" }}]\n"
    )?;
    let filter = read_filter(alloc, text.as_bytes())?;
    let eqs = filter.eqs();
    Ok((
        filter.form().word(),
        eqs.rows(),
        eqs.terms().len(),
        filter.coefficients().len(),
    ))
}

#[test]
fn each_form_is_read(rt: HostRuntime) {
    let table = [
        (
            "form = \"tf\"\nb = [1, 2]\na = [1, \"-0.5\"]",
            ("tf", 1, 3, 4),
        ),
        (
            "form = \"sos\"\nsections = [[1, 0, 2, 1, 3, 4], [1, 2, 3, 1, 0, 6]]",
            ("sos", 2, 8, 12),
        ),
        (
            "form = \"ss\"\nA = [[1, 0], [3, 4]]\nB = [[1], [2]]\nC = [[1, 2]]\nD = [[1]]",
            ("ss", 3, 8, 9),
        ),
        (
            "form = \"lattice\"\nk = [1, 2]\nv = [1, 2, 3]",
            ("lattice", 5, 11, 5),
        ),
        ("form = \"lattice\"\nk = []\nv = [3]", ("lattice", 1, 1, 1)),
    ];
    for (lines, wanted) in table {
        assert_eq!(rt; counts(rt.alloc(), lines).ok(), Some(wanted), "{lines}");
    }
}

fn one_plan() -> Plan
    ensures { PlanFits result }
{
    Plan {
        structure: Structure::Df1,
        input_low: -2,
        input: InputFormat {
            width: 12,
            bound: 100,
        },
        width: 16,
        low: 3,
        error: Frac::one(),
        accumulator: 32,
        word: 24,
        guard: 4,
        fraction: 14,
        length: 256,
    }
}

const SECTIONS: &str =
    "form = \"sos\"\nsections = [[\"0.5\", 0, 0, 1, \"-0.1\", 0]]\nstructure = \"df1\"\ninput_low = -2\ninputs = [{ width = 12, bound = 100 }]\noutputs = [{ width = 16, low = 3, error = 1 }]\naccumulator = 32\nword = 24\nguards = [4]\nfractions = [14]\nlengths = [256]\n";

// The filter of the sections of another, in the formats and settings of the plan.
fn of_same_sections(alloc: Global, read: &Filter) -> Option<Filter> {
    filters_fit(read);
    match read.form() {
        Form::Sos => Filter::of_sections(alloc, read.coefficients(), one_plan()).ok(),
        _ => None,
    }
}

fn check_same(rt: &impl Abort, filter: &Filter, read: &Filter) {
    assert_eq!(rt; filter.form().word(), read.form().word());
    assert_eq!(rt; filter.structure().word(), read.structure().word());
    assert_eq!(rt; is_floored(filter), is_floored(read));
    assert_eq!(rt; filter.input_low(), read.input_low());
    assert_eq!(rt; filter.accumulator(), read.accumulator());
    assert_eq!(rt; filter.word(), read.word());
    assert_eq!(rt; filter.guards(), read.guards());
    assert_eq!(rt; filter.fractions(), read.fractions());
    assert_eq!(rt; filter.lengths(), read.lengths());
    assert_eq!(rt; filter.coefficients(), read.coefficients());
}

fn check_same_ports(rt: &impl Abort, filter: &Filter, read: &Filter) {
    assert_eq!(rt; (filter.inputs().len(), filter.outputs().len()), (1, 1));
    assert_eq!(rt;
        input_parts(filter.inputs()[0]),
        input_parts(read.inputs()[0])
    );
    assert_eq!(rt;
        output_parts(filter.outputs()[0]),
        output_parts(read.outputs()[0])
    );
    assert_eq!(rt; filter.eqs().rows(), read.eqs().rows());
    assert_eq!(rt; filter.eqs().terms().len(), read.eqs().terms().len());
}

#[test]
fn sections_give_the_filter_of_a_file(rt: HostRuntime) -> Result<(), Fail> {
    let read = read_filter(rt.alloc(), SECTIONS.as_bytes())
        .ok()
        .ok_or("read")?;
    let filter = of_same_sections(rt.alloc(), &read).ok_or("memory")?;
    assert!(rt; !is_floored(&filter));
    check_same(&rt, &filter, &read);
    check_same_ports(&rt, &filter, &read);
    Ok(())
}
