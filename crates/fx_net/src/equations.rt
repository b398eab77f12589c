ghost use Rattle.std.specs.Prelude.{◌≡◌, ◌+◌, ◌<◌, ◌≤◌, length};
ghost use Rattle.fx_eqs.specs.Expanded.{equation_row, expanded, hold_rows, row_place};
ghost use Rattle.fx_net.specs.Layout.{read_of};
ghost use Rattle.fx_net.specs.Rows.{AreEmpty, ReadFits, put_each, put_rows, put_term, put_terms};
ghost use Rattle.fx_net.specs.Tables.{net_of};
ghost use Rattle.fx_net.specs.Parts.{equations, input_holds, row_holds};

use crate::layout::{Layout, Read};
use crate::net::Net;
use fx_eqs::{Eqs, Source};
use fx_nums::Frac;

impl<const N: usize> Net<N> {
    // One more term of row `row` of those from `at` on.
    fn put_term(&mut self, at: usize, row: usize, c: Frac, from: Read)
        requires row { at + row < N }
        requires read { ReadFits N at row (read_of from) }
        ensures { net_of self.new ≡ put_term at row c (read_of from) (net_of self.old) }
    {
        match from {
            Read::Now(j) => self.set_now(at + row, at + j, c),
            Read::Old(j) => self.set_old(at + row, at + j, c),
            Read::In(j) => self.set_in(at + row, j, c),
        }
    }

    // So many rows from `place` on: the first holds what is read, each further one what the one before it held.
    fn put_holds(&mut self, at: usize, from: Read, count: usize, place: usize)
        requires inside { at + place + count ≤ N }
        requires read { ReadFits N at place (read_of from) }
        ensures { net_of self.new ≡ put_each at place (hold_rows (read_of from) count place) (net_of self.old) }
    {
        let mut from = from;
        for row in place..place + count {
            self.put_term(at, row, Frac::one(), from);
            from = Read::Old(row);
        }
    }

    // The terms of row `i` of the equations.
    fn put_equation(&mut self, layout: &Layout, at: usize, i: usize)
        requires row { i < layout.now.eqs.now.rows }
        requires inside { at + length (expanded layout.now.eqs.now) ≤ N }
        ensures { net_of self.new
            ≡ put_terms at (row_place layout.now.eqs.now i) (equation_row layout.now.eqs.now i)
            (net_of self.old) }
    {
        let terms = layout.eqs.terms();
        for term in terms {
            if usize::from(term.row) == i {
                let from = layout.read(term.from, term.lag);
                self.put_term(at, layout.first + i, term.coef, from);
            }
        }
    }

    // The rows that hold inputs.
    fn put_input_holds(&mut self, layout: &Layout, at: usize)
        requires inside { at + length (expanded layout.now.eqs.now) ≤ N }
        ensures { net_of self.new
            ≡ put_each at 0 (input_holds layout.now.eqs.now layout.now.eqs.now.inputs) (net_of self.old) }
    {
        for j in 0..layout.eqs.inputs() {
            let count = layout.eqs.greatest_lag(Source::In(j as u8));
            self.put_holds(at, Read::In(j), count, layout.inputs[j]);
        }
    }

    // The rows of the equations.
    fn put_equations(&mut self, layout: &Layout, at: usize)
        requires inside { at + length (expanded layout.now.eqs.now) ≤ N }
        ensures { net_of self.new
            ≡ put_each at (row_place layout.now.eqs.now 0)
            (equations layout.now.eqs.now layout.now.eqs.now.rows) (net_of self.old) }
    {
        for i in 0..layout.eqs.rows() {
            self.put_equation(layout, at, i);
        }
    }

    // The rows that hold rows.
    fn put_row_holds(&mut self, layout: &Layout, at: usize)
        requires inside { at + length (expanded layout.now.eqs.now) ≤ N }
        ensures { net_of self.new
            ≡ put_each at (row_place layout.now.eqs.now layout.now.eqs.now.rows)
            (row_holds layout.now.eqs.now layout.now.eqs.now.rows) (net_of self.old) }
    {
        for j in 0..layout.eqs.rows() {
            let count = layout
                .eqs
                .greatest_lag(Source::Row(j as u8))
                .saturating_sub(1);
            self.put_holds(at, Read::Old(layout.first + j), count, layout.rows[j]);
        }
    }

    /// Puts the expanded rows of an equation system from row `at` on, with class 0. All of them are among the N rows,
    /// read nothing yet and have class 0; the other rows stay.
    pub fn put_eqs(&mut self, eqs: &Eqs, at: usize)
        requires inside { at + length (expanded eqs.now) ≤ N }
        requires empty { AreEmpty at (length (expanded eqs.now)) (net_of self.old) }
        ensures { net_of self.new ≡ put_rows (expanded eqs.now) at (net_of self.old) }
    {
        let layout = Layout::new(eqs);
        self.put_input_holds(&layout, at);
        self.put_equations(&layout, at);
        self.put_row_holds(&layout, at);
    }
}
