//! The rows of a design in a net.

ghost use Rattle.std.specs.Prelude.{◌≡◌, ◌+◌, ◌<◌, ◌≤◌, length, map};
ghost use Rattle.fx_code.specs.NetRows.{
  bare_at,
  class_of,
  classes_of,
  net_row,
  put_bare_rows,
  put_classes,
};
ghost use Rattle.fx_net.specs.Rows.{AreEmpty, put_each, put_terms};
ghost use Rattle.fx_net.specs.Tables.{net_of};
ghost use Rattle.fx_quant.specs.Design.{DesignFits};

use crate::design::Design;
use fx_code::{class_in, put_term};
use fx_net::Net;

impl Design {
    // How many half steps row i may be off.
    fn class(&self, i: usize) -> u8
        requires { i < length self.now.rows }
        ensures value { result ≡ class_of (bare_at self.now.rows i) }
        ensures high { result ≤ 2 }
    {
        class_in(self.mode(i), self.shift(i))
    }

    // Puts the terms of row i.
    fn put_row<const N: usize>(&self, net: &mut Net<N>, at: usize, i: usize)
        requires design { DesignFits self.now }
        requires room { at + length self.now.rows ≤ N }
        requires row { i < length self.now.rows }
        ensures { net_of net.new ≡ put_terms at i (net_row (bare_at self.now.rows i)) (net_of net.old) }
    {
        let shift = self.shift(i);
        for term in self.terms(i) {
            put_term(net, at, i, shift, term);
        }
    }

    // Puts the terms of all rows.
    fn put_terms<const N: usize>(&self, net: &mut Net<N>, at: usize)
        requires design { DesignFits self.now }
        requires room { at + length self.now.rows ≤ N }
        ensures { net_of net.new ≡ put_each at 0 (map net_row self.now.rows) (net_of net.old) }
    {
        for i in 0..self.rows() {
            self.put_row(net, at, i);
        }
    }

    // Puts the class of each row.
    fn put_classes<const N: usize>(&self, net: &mut Net<N>, at: usize)
        requires room { at + length self.now.rows ≤ N }
        ensures { net_of net.new ≡ record (net_of net.old) {
          class =
              put_classes (classes_of self.now.rows) at (length self.now.rows) (net_of net.old).class;
        } }
    {
        for i in 0..self.rows() {
            net.set_halves(at + i, self.class(i));
        }
    }

    /// Writes the rows of a design that fits into a net, from row `at` on: what a row takes of a source is the term's
    /// coefficient, shifted to the left, over 2 to the power of the row's right shift. A row's class, the half steps
    /// that it may be off, is 0 where its right shift is 0, else 1 to the nearest and 2 where it floors. The rows have
    /// to fit into the net, and to be empty there; the other rows stay.
    pub fn put_net<const N: usize>(&self, net: &mut Net<N>, at: usize)
        requires design { DesignFits self.now }
        requires room { at + length self.now.rows ≤ N }
        requires empty { AreEmpty at (length self.now.rows) (net_of net.old) }
        ensures { net_of net.new ≡ put_bare_rows self.now.rows at (net_of net.old) }
    {
        self.put_terms(net, at);
        self.put_classes(net, at);
    }
}
