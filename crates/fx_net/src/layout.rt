ghost use Rattle.std.specs.Prelude.{◌≡◌, ◌+◌, ◌-◌, ◌*◌, ◌<◌, ◌≤◌, slice_index_or};
ghost use Rattle.fx_eqs.specs.Expanded.{input_hold_place, net_read, row_hold_place, row_place};
ghost use Rattle.fx_net.specs.Layout.{ArePlaces, IsRead, read_of};

use fx_eqs::{Eqs, LONGEST_LAG, NET_ROWS, PORTS, Source, systems_fit};

/// What a row reads: a row of the same moment, a row of the moment before, or an input.
#[derive(Clone, Copy)]
pub enum Read {
    Now(usize),
    Old(usize),
    In(usize),
}

/// Where the rows of an equation system's net stand, numbered from its first row: the first row that holds each input,
/// the first row of the equations, and the first row that holds each of these.
#[derive(Drop)]
pub struct Layout<'a> {
    pub eqs: &'a Eqs,
    pub inputs: [usize; PORTS],
    pub first: usize,
    pub rows: [usize; NET_ROWS],
    ghost places: { ArePlaces eqs.now inputs first rows },
}

// The first rows that hold the inputs, and the row after the last of them.
fn input_places(eqs: &Eqs) -> ([usize; PORTS], usize)
    ensures holds { (j : _) → j < eqs.now.inputs → slice_index_or result.0 j 0 ≡ input_hold_place eqs.now j }
    ensures next { result.1 ≡ row_place eqs.now 0 }
    ensures high { result.1 ≤ LONGEST_LAG * PORTS }
{
    let mut places = [0; PORTS];
    let mut next = 0;
    for j in 0..eqs.inputs() {
        places[j] = next;
        next += eqs.greatest_lag(Source::In(j as u8));
    }
    (places, next)
}

// The first rows that hold the rows, where `next` is the row after the last of the equations.
fn row_places(eqs: &Eqs, next: usize) -> [usize; NET_ROWS]
    requires next { next ≡ row_place eqs.now eqs.now.rows }
    requires high { next ≤ LONGEST_LAG * PORTS + NET_ROWS }
    ensures { (j : _) → j < eqs.now.rows → slice_index_or result j 0 ≡ row_hold_place eqs.now j }
{
    let mut places = [0; NET_ROWS];
    let mut next = next;
    for j in 0..eqs.rows() {
        places[j] = next;
        next += eqs.greatest_lag(Source::Row(j as u8)).saturating_sub(1);
    }
    places
}

impl<'a> Layout<'a> {
    /// The places of a system's rows.
    pub fn new(eqs: &'a Eqs) -> Layout<'a>
        ensures { result.eqs.now ≡ eqs.now }
    {
        let (inputs, first) = input_places(eqs);
        let rows = row_places(eqs, first + eqs.rows());
        systems_fit(eqs);
        Layout {
            eqs,
            inputs,
            first,
            rows,
        }
    }

    /// What reads a source of the system at a lag at which a term reads it.
    pub fn read(&self, from: Source, lag: u8) -> Read
        requires { IsRead self.now.eqs.now from lag }
        ensures { read_of result ≡ net_read self.now.eqs.now from lag }
    {
        let late = usize::from(lag);
        match from {
            Source::In(j) if late == 0 => Read::In(usize::from(j)),
            Source::In(j) => Read::Old(self.inputs[usize::from(j)] + late - 1),
            Source::Row(j) if late == 0 => Read::Now(self.first + usize::from(j)),
            Source::Row(j) if late == 1 => Read::Old(self.first + usize::from(j)),
            Source::Row(j) => Read::Old(self.rows[usize::from(j)] + late - 2),
        }
    }
}
