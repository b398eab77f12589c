ghost use Rattle.std.specs.Prelude.{◌≡◌, ◌<◌};
ghost use Rattle.fx_gain.specs.Peaks.{interval_of, words_of};

use fx_eqs::PORTS;
use fx_mat::IvMat;
use fx_nums::Iv;
use std::marker::Model;

/// For each output and input of a filter: how far the output goes on words of that input alone, enclosed, and words
/// that reach the lower end.
#[derive(Drop)]
pub struct Peaks {
    pub(crate) moments: u16,
    pub(crate) outputs: usize,
    pub(crate) inputs: usize,
    pub(crate) intervals: IvMat<PORTS, PORTS>,
    // One output after the other.
    pub(crate) words: Vec<Vec<i64>>,
}

impl Model for Peaks {
    ghost use Rattle.fx_gain.specs.Peaks.{PeakValues, PeaksFit};
    ghost use Rattle.fx_gain.specs.Inside.{values_of};

    ghost Value = { PeakValues };

    ghost view = { values_of };

    ghost invariant = { λ p. PeaksFit (values_of p) };
}

impl Peaks {
    /// How many moments the block has: the first listed length that serves.
    pub fn length(&self) -> u16
        ensures { result ≡ self.now.moments }
    {
        self.moments
    }

    /// How far an output goes on words of an input alone, in input steps.
    pub fn enclosure(&self, output: usize, input: usize) -> Iv
        requires output { output < self.now.outputs }
        requires input { input < self.now.inputs }
        ensures { result ≡ interval_of self.now output input }
    {
        self.intervals.get(output, input)
    }

    /// The words of an input, in the order of time, on which the exact output at the last moment is at least the low
    /// end.
    pub fn worst(&self, output: usize, input: usize) -> &[i64]
        requires output { output < self.now.outputs }
        requires input { input < self.now.inputs }
        ensures { result.now ≡ words_of self.now output input }
    {
        &self.words[output * self.inputs + input]
    }
}
