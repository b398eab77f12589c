ghost use Rattle.std.specs.Prelude.{◌≡◌, ◌<◌, length};
ghost use Rattle.fx_code.specs.NetRows.{bare_at};
ghost use Rattle.fx_quant.specs.Inside.{row_of};

use fx_code::CodeTerm;
use fx_eqs::Mode;
use std::marker::Model;

#[derive(Drop)]
pub(crate) struct DesignRow {
    pub shift: u8,
    pub mode: Mode,
    pub terms: Vec<CodeTerm>,
}

/// The rows of integer code before the widths of their words are known.
#[derive(Drop)]
pub struct Design {
    pub(crate) accumulator: u8,
    pub(crate) inputs: u8,
    pub(crate) rows: Vec<DesignRow>,
}

impl Model for Design {
    ghost use Rattle.fx_quant.specs.Design.{Quantised};

    ghost Value = { Quantised };

    ghost use Rattle.fx_quant.specs.Inside.{design_of};

    ghost view = { design_of };
}

impl Design {
    /// How many rows there are.
    pub fn rows(&self) -> usize
        ensures { result ≡ length self.now.rows }
    {
        self.rows.len()
    }

    // Row i.
    fn row(&self, i: usize) -> &DesignRow
        requires { i < length self.now.rows }
        ensures { row_of result.now ≡ bare_at self.now.rows i }
    {
        &self.rows[i]
    }

    /// The right shift of row i.
    pub fn shift(&self, i: usize) -> u8
        requires { i < length self.now.rows }
        ensures { result ≡ (bare_at self.now.rows i).shift }
    {
        self.row(i).shift
    }

    /// How row i drops its low places.
    pub fn mode(&self, i: usize) -> Mode
        requires { i < length self.now.rows }
        ensures { result ≡ (bare_at self.now.rows i).mode }
    {
        self.row(i).mode
    }

    /// The terms of row i, in their order.
    pub fn terms(&self, i: usize) -> &[CodeTerm]
        requires { i < length self.now.rows }
        ensures { result.now ≡ (bare_at self.now.rows i).terms }
    {
        &self.row(i).terms
    }
}
