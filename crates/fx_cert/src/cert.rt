ghost use Rattle.std.specs.Prelude.{◌≡◌, ◌≤◌, ◌<◌, length, IfOk, All};
ghost use Rattle.fx_msb.specs.Widths.{IsBound};
ghost use Rattle.fx_cert.specs.Certificate.{CertificateFits, IsError, output_length, row_length};

use crate::limits::{GREATEST_LENGTH, GREATEST_OUTPUTS, GREATEST_ROWS, LEAST_LENGTH};
use std::alloc::{AllocError, Global};
use std::marker::Model;

/// What is claimed of a program and a filter: how long a block is, a bound of each row, an error of each output.
#[derive(Drop)]
pub struct Cert {
    block: u16,
    bounds: Vec<i64>,
    errors: Vec<i128>,
}

impl Model for Cert {
    ghost use Rattle.fx_cert.specs.Certificate.{Certificate};

    ghost Value = { Certificate };

    ghost use Rattle.fx_cert.specs.Inside.{certificate_of, IsKept};

    ghost view = { certificate_of };

    ghost invariant = { IsKept };
}

impl Cert {
    /// A certificate with a block of `length` moments, 1 to `GREATEST_LENGTH`, with 1 to `GREATEST_ROWS` bounds x from
    /// 0 to 2147483647 in steps of their rows, and with 1 to `GREATEST_OUTPUTS` errors e from 0 to `GREATEST_ERROR` in
    /// units of 2^-64 output steps. Its error is want of memory.
    pub fn build(alloc: Global, length: u16, x: &[i64], e: &[i128]) -> Result<Cert, AllocError>
        requires { CertificateFits (record { length = length; bounds = x.now; errors = e.now }) }
        ensures { IfOk result (λ c. c ≡ record { length = length; bounds = x.now; errors = e.now }) }
    {
        let bounds = x.to_vec(alloc)?;
        let errors = e.to_vec(alloc)?;
        Ok(Cert {
            block: length,
            bounds,
            errors,
        })
    }

    /// An equal certificate. Its error is want of memory.
    pub fn copy(&self, alloc: Global) -> Result<Cert, AllocError>
        ensures { IfOk result (λ c. c ≡ self.now) }
    {
        let bounds = self.bounds.to_vec(alloc)?;
        let errors = self.errors.to_vec(alloc)?;
        Ok(Cert {
            block: self.block,
            bounds,
            errors,
        })
    }

    /// How many moments a block has: 1 to `GREATEST_LENGTH`.
    pub fn length(&self) -> u16
        ensures value { result ≡ self.now.length }
        ensures low { LEAST_LENGTH ≤ result }
        ensures high { result ≤ GREATEST_LENGTH }
    {
        self.block
    }

    /// How many moments the block of row i has: 1 to `GREATEST_LENGTH`.
    pub fn row_length(&self, i: usize) -> u16
        requires { i < length self.now.bounds }
        ensures value { result ≡ row_length self.now i }
        ensures low { LEAST_LENGTH ≤ result }
        ensures high { result ≤ GREATEST_LENGTH }
    {
        let _ = i;
        self.block
    }

    /// How many moments the block of output o has: 1 to `GREATEST_LENGTH`.
    pub fn output_length(&self, o: usize) -> u16
        requires { o < length self.now.errors }
        ensures value { result ≡ output_length self.now o }
        ensures low { LEAST_LENGTH ≤ result }
        ensures high { result ≤ GREATEST_LENGTH }
    {
        let _ = o;
        self.block
    }

    /// The bound of each row in steps of the row, those of the code's rows first: 1 to `GREATEST_ROWS`, each
    /// 0 to 2147483647.
    pub fn x(&self) -> &[i64]
        ensures value { result.now ≡ self.now.bounds }
        ensures low { 1 ≤ length result.now }
        ensures high { length result.now ≤ GREATEST_ROWS }
        ensures fits { All IsBound result.now }
    {
        &self.bounds
    }

    /// The error of each output in units of 2^-64 output steps: 1 to `GREATEST_OUTPUTS`, each 0 to `GREATEST_ERROR`.
    pub fn e(&self) -> &[i128]
        ensures value { result.now ≡ self.now.errors }
        ensures low { 1 ≤ length result.now }
        ensures high { length result.now ≤ GREATEST_OUTPUTS }
        ensures fits { All IsError result.now }
    {
        &self.errors
    }
}

// The certificate of numbers that were read.
pub(crate) fn certificate_with(block: u16, bounds: Vec<i64>, errors: Vec<i128>) -> Cert
    requires { CertificateFits (record { length = block; bounds = bounds.items; errors = errors.items }) }
    ensures { result ≡ record { length = block; bounds = bounds.items; errors = errors.items } }
{
    Cert {
        block,
        bounds,
        errors,
    }
}

/// A law with nothing to run: the numbers of each certificate are in their ranges.
pub fn certificates_fit(certificate: &Cert)
    ensures { CertificateFits certificate.now }
{
    let _ = &certificate.block;
}
