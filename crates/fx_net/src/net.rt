ghost use Rattle.std.specs.Prelude.{◌≡◌, ◌<◌, ◌≤◌, IfOk};
ghost use Rattle.fx_net.specs.Net.{NetFits, empty_net, put_class, put_input, put_now, put_old};
ghost use Rattle.fx_net.specs.Run.{IsDenominator};
ghost use Rattle.fx_net.specs.Running.{widest};
ghost use Rattle.fx_cross.specs.Table.{entry_at};
ghost use Rattle.fx_net.specs.Tables.{HoldsAll, net_of};
ghost use Rattle.fx_net.specs.Links.{coefficients, source_count};

use crate::limits::{GREATEST_CLASS, LARGEST_NET};
use fx_cross::{Cross, entries_have_places};
use fx_eqs::PORTS;
use fx_nums::Frac;
use std::alloc::{AllocError, Global};
use std::marker::Model;

/// One of the tables of coefficients of a net.
#[derive(Clone, Copy)]
pub enum Which {
    /// Those of rows of the same moment.
    Now,
    /// Those of rows of the moment before.
    Old,
    /// Those of inputs.
    In,
}

/// N rows, each with coefficients of earlier rows of the same moment, of rows of the moment before and of `PORTS`
/// inputs, and with a class: how many half steps its perturbation may have. N is 1 to `LARGEST_NET`.
#[derive(Drop)]
pub struct Net<const N: usize> {
    now_table: Cross,
    old_table: Cross,
    input_table: Cross,
    classes: Vec<u8>,
}

impl<const N: usize> Model for Net<N> {
    ghost use Rattle.fx_net.specs.Tables.{Tables, TablesFit};

    ghost Value = { Tables };

    ghost view = { λ n. record { size = N; now_table = n.now_table; old_table = n.old_table; input_table = n.input_table; classes = n.classes.items } };

    ghost invariant = { λ n. TablesFit (record { size = N; now_table = n.now_table; old_table = n.old_table; input_table = n.input_table; classes = n.classes.items }) };
}

impl<const N: usize> Net<N> {
    /// A net whose rows read nothing and have class 0. Its error is want of memory.
    pub fn new(alloc: Global) -> Result<Net<N>, AllocError>
        requires low { 1 ≤ N }
        requires high { N ≤ LARGEST_NET }
        ensures { IfOk result (λ n. net_of n ≡ empty_net N) }
    {
        Ok(Net {
            now_table: Cross::new(alloc, N, N, N * N)?,
            old_table: Cross::new(alloc, N, N, N * N)?,
            input_table: Cross::new(alloc, N, PORTS, N * PORTS)?,
            classes: vec![in alloc; 0; N]?,
        })
    }

    /// Makes each row read nothing and have class 0.
    pub fn clear(&mut self)
        ensures { net_of self.new ≡ empty_net N }
    {
        self.now_table.clear();
        self.old_table.clear();
        self.input_table.clear();
        self.classes.fill(0);
    }

    /// Sets what row `i`, below N, takes of row `j`, below `i`, of the same moment. A coefficient of value 0 is kept as
    /// 0 over 10^0.
    pub fn set_now(&mut self, i: usize, j: usize, c: Frac)
        requires row { i < N }
        requires source { j < i }
        ensures { net_of self.new ≡ put_now i j c (net_of self.old) }
    {
        entries_have_places(&self.now_table);
        self.now_table.set(i, j, c);
    }

    /// Sets what row `i` takes of row `j` of the moment before; both are below N. A coefficient of value 0 is kept as 0
    /// over 10^0.
    pub fn set_old(&mut self, i: usize, j: usize, c: Frac)
        requires row { i < N }
        requires source { j < N }
        ensures { net_of self.new ≡ put_old i j c (net_of self.old) }
    {
        entries_have_places(&self.old_table);
        self.old_table.set(i, j, c);
    }

    /// Sets what row `i`, below N, takes of input `j`, below `PORTS`. A coefficient of value 0 is kept as 0 over 10^0.
    pub fn set_in(&mut self, i: usize, j: usize, c: Frac)
        requires row { i < N }
        requires source { j < PORTS }
        ensures { net_of self.new ≡ put_input i j c (net_of self.old) }
    {
        entries_have_places(&self.input_table);
        self.input_table.set(i, j, c);
    }

    /// Sets the class of row `i`, below N: how many half steps its perturbation may have, at most `GREATEST_CLASS`.
    #[tactic(auto, using(crate::proofs::Numbers::written_number))]
    pub fn set_halves(&mut self, i: usize, e: u8)
        requires row { i < N }
        requires class { e ≤ GREATEST_CLASS }
        ensures { net_of self.new ≡ put_class i e (net_of self.old) }
    {
        self.classes[i] = e;
    }

    /// What row `i` takes of row `j` of the same moment, 0 unless `j` is below `i`; both are below N.
    pub fn now(&self, i: usize, j: usize) -> Frac
        requires row { i < N }
        requires source { j < N }
        ensures { result ≡ (net_of self.now).now i j }
    {
        self.now_table.get(i, j)
    }

    /// What row `i` takes of row `j` of the moment before; both are below N.
    pub fn old(&self, i: usize, j: usize) -> Frac
        requires row { i < N }
        requires source { j < N }
        ensures { result ≡ (net_of self.now).old i j }
    {
        self.old_table.get(i, j)
    }

    /// What row `i`, below N, takes of input `j`, below `PORTS`.
    pub fn input(&self, i: usize, j: usize) -> Frac
        requires row { i < N }
        requires source { j < PORTS }
        ensures { result ≡ (net_of self.now).input i j }
    {
        self.input_table.get(i, j)
    }

    /// A table of coefficients: N rows, a column for each row or input that they are of, and a link for each that is
    /// not 0.
    pub fn links(&self, which: Which) -> &Cross
        ensures coefficients { entry_at result.now ≡ coefficients (net_of self.now) which }
        ensures sizes { HoldsAll result.now N (source_count N which) }
    {
        match which {
            Which::Now => &self.now_table,
            Which::Old => &self.old_table,
            Which::In => &self.input_table,
        }
    }

    /// The class of row `i`, below N: how many half steps its perturbation may have, at most `GREATEST_CLASS`.
    #[tactic(auto, using(crate::proofs::Numbers::number_read))]
    pub fn halves(&self, i: usize) -> u8
        requires row { i < N }
        ensures value { result ≡ (net_of self.now).class i }
        ensures high { result ≤ GREATEST_CLASS }
    {
        self.classes[i]
    }
}

/// A law with nothing to run: each net has N rows, 1 to `LARGEST_NET`, each of which takes only earlier rows of its own
/// moment; nothing outside; and classes up to `GREATEST_CLASS`.
pub fn nets_fit<const N: usize>(net: &Net<N>)
    ensures { NetFits N (net_of net.now) }
{
    entries_have_places(&net.now_table);
    entries_have_places(&net.old_table);
    entries_have_places(&net.input_table);
    let _ = &net.classes;
}

/// A law with nothing to run: 2^62 * 10^28 is a denominator of each net, since each coefficient is a fraction over a
/// power of two up to 2^62 or of ten up to 10^28.
pub fn nets_have_a_denominator<const N: usize>(net: &Net<N>)
    ensures { IsDenominator (net_of net.now) widest }
{
    let _ = &net.classes;
}
