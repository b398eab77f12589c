//! The widths of the rows of a design.

ghost use Rattle.std.specs.Prelude.{◌<◌, ◌≤◌, length, All, IfOk};
ghost use Rattle.fx_math.specs.Words.{WidthFits};
ghost use Rattle.fx_msb.specs.Widths.{IsBound};
ghost use Rattle.fx_quant.specs.Widths.{AreRowWidths, HasLeastWidths};

use crate::design::Design;
use fx_msb::least_width;
use std::alloc::{AllocError, Global};

// The least width for each bound.
#[tactic(auto, using(crate::proofs::LeastWidths::least_none, crate::proofs::LeastWidths::least_more))]
fn least_widths(alloc: Global, bounds: &[i64]) -> Result<Vec<u8>, AllocError>
    requires { All IsBound bounds.now }
    ensures least { IfOk result (λ v. HasLeastWidths bounds.now v.items) }
    ensures fits { IfOk result (λ v. All WidthFits v.items) }
{
    let mut widths = Vec::new(alloc);
    for &bound in bounds {
        widths.push(least_width(bound))?;
    }
    Ok(widths)
}

impl Design {
    /// The width of each row: the least, 2 to 32 bits, that takes the row's bound; the last rows are put out, and have
    /// the widths of the outputs. Bounds past the rows are not read.
    ///
    /// Its error is want of memory.
    #[tactic(auto, using(crate::proofs::LeastWidths::row_widths))]
    pub fn widths(
        &self,
        alloc: Global,
        bounds: &[i64],
        outputs: &[u8],
    ) -> Result<Vec<u8>, AllocError>
        requires count { length self.now.rows ≤ length bounds.now }
        requires bounds { All IsBound bounds.now }
        requires outputs { length outputs.now ≤ length self.now.rows }
        requires output_widths { All WidthFits outputs.now }
        ensures widths { IfOk result (λ v. AreRowWidths (length self.now.rows) bounds.now outputs.now v.items) }
        ensures fits { IfOk result (λ v. All WidthFits v.items) }
    {
        let inner = self.rows() - outputs.len();
        let mut widths = least_widths(alloc, &bounds[..inner])?;
        widths.extend_from_slice(outputs)?;
        Ok(widths)
    }
}
