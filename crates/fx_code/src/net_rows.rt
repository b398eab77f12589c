ghost use Rattle.std.specs.Prelude.{◌≡◌, ◌+◌, ◌<◌, ◌≤◌, length, map};
ghost use Rattle.fx_net.specs.Rows.{AreEmpty, ReadFits, put_each, put_term, put_terms};
ghost use Rattle.fx_net.specs.Tables.{net_of};
ghost use Rattle.fx_code.specs.Code.{IsWhole, row_at};
ghost use Rattle.fx_code.specs.Fits.{TermFits};
ghost use Rattle.fx_code.specs.NetRows.{bare_rows, class_of, net_read, net_row, net_term, put_classes, put_code};

use crate::limits::LONGEST_SHIFT;
use crate::program::{Program, programs_fit};
use crate::term::{CodeTerm, Read};
use fx_net::Net;
use fx_nums::{Den, Frac};

/// Puts a term of row `row` of those from `at` on into a net: its weight over 2 to the power of the row's right
/// shift, at the source that it reads.
pub fn put_term<const N: usize>(net: &mut Net<N>, at: usize, row: usize, shift: u8, term: &CodeTerm)
    requires row { at + row < N }
    requires shift { shift ≤ LONGEST_SHIFT }
    requires fits { TermFits shift term.now }
    requires read { ReadFits N at row (net_read term.now.from) }
    ensures { net_of net.new
        ≡ put_term at row (net_term shift term.now).coef (net_term shift term.now).from (net_of net.old) }
{
    let Some(coefficient) = Frac::new(term.weight() as i64, Den::Two(shift)) else {
        unreachable!();
    };
    match term.from {
        Read::Now(j) => net.set_now(at + row, at + usize::from(j), coefficient),
        Read::Old(j) => net.set_old(at + row, at + usize::from(j), coefficient),
        Read::In(j) => net.set_in(at + row, usize::from(j), coefficient),
    }
}

impl Program {
    // Puts the terms of row i.
    fn put_row<const N: usize>(&self, net: &mut Net<N>, at: usize, i: usize)
        requires whole { IsWhole self.now }
        requires room { at + length self.now.rows ≤ N }
        requires row { i < length self.now.rows }
        ensures { net_of net.new ≡ put_terms at i (net_row (row_at self.now i).own) (net_of net.old) }
    {
        programs_fit(self);
        let shift = self.shift(i);
        for term in self.terms(i) {
            put_term(net, at, i, shift, term);
        }
    }

    // Puts the terms of all rows.
    fn put_terms<const N: usize>(&self, net: &mut Net<N>, at: usize)
        requires whole { IsWhole self.now }
        requires room { at + length self.now.rows ≤ N }
        ensures { net_of net.new ≡ put_each at 0 (map net_row (bare_rows self.now)) (net_of net.old) }
    {
        for i in 0..self.rows() {
            self.put_row(net, at, i);
        }
    }

    // Puts the class of each row.
    fn put_classes<const N: usize>(&self, net: &mut Net<N>, at: usize)
        requires room { at + length self.now.rows ≤ N }
        ensures { net_of net.new ≡ record (net_of net.old) {
          class =
              put_classes (λ r. class_of (row_at self.now r).own) at (length self.now.rows)
              (net_of net.old).class;
        } }
    {
        for i in 0..self.rows() {
            net.set_halves(at + i, self.class(i));
        }
    }

    /// Writes the rows of a whole program into a net, from row `at` on: what a row takes of a source is the term's
    /// coefficient, shifted to the left, over 2 to the power of the row's right shift. A row's class is 0 where its
    /// right shift is 0, else 1 where it rounds to the nearest, and 2 where it floors: it is off by at most so many
    /// half steps. The rows have to fit into the net, and to be empty there; the other rows stay.
    pub fn put_net<const N: usize>(&self, net: &mut Net<N>, at: usize)
        requires whole { IsWhole self.now }
        requires room { at + length self.now.rows ≤ N }
        requires empty { AreEmpty at (length self.now.rows) (net_of net.old) }
        ensures { net_of net.new ≡ put_code self.now at (net_of net.old) }
    {
        self.put_terms(net, at);
        self.put_classes(net, at);
    }
}
