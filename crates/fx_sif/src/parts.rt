ghost use Rattle.std.specs.Prelude.{◌≡◌, ◌<◌, ◌^◌};
ghost use Rattle.fx_sif.specs.Implicit.{single};

use fx_nums::Frac;

/// The nine blocks of `J t' = M x + N u`, `x' = K t' + P x + Q u`, `y = L t' + R x + S u`. Here u are the
/// inputs and y the outputs of a moment, x the states before it and x' those behind it, and t' the moment's
/// intermediate variables. As counts, t, x, u and y are those of `Sizes`.
#[derive(Clone, Copy, PartialEq, Eq)]
pub enum Block {
    /// t rows and t columns.
    J,
    /// x rows and t columns.
    K,
    /// y rows and t columns.
    L,
    /// t rows and x columns.
    M,
    /// t rows and u columns.
    N,
    /// x rows and x columns.
    P,
    /// x rows and u columns.
    Q,
    /// y rows and x columns.
    R,
    /// y rows and u columns.
    S,
}

/// The entry of row `i` and column `j` of a block.
#[derive(Clone, Copy)]
pub struct Entry {
    /// One of the nine blocks.
    pub block: Block,
    /// From 0 to one below the rows of the block.
    pub i: u8,
    /// From 0 to one below the columns of the block.
    pub j: u8,
    /// Any fraction; in J it is 1 on the diagonal and 0 above it.
    pub coef: Frac,
}

/// How many intermediate variables, states, inputs and outputs there are. The rows, `t + x + y`, are at most
/// `FORM_ROWS`.
#[derive(Clone, Copy)]
pub struct Sizes {
    /// Intermediate variables: 0 to `FORM_ROWS` - 1.
    pub t: u8,
    /// States: 0 to `FORM_ROWS` - 1.
    pub x: u8,
    /// Inputs: 1 to `PORTS` of fx_eqs.
    pub u: u8,
    /// Outputs: 1 to `PORTS` of fx_eqs.
    pub y: u8,
}

impl Sizes {
    /// One input and one output, with so many intermediate variables and states.
    pub fn single(t: usize, x: usize) -> Sizes
        requires { (t < 2 ^ 8) × (x < 2 ^ 8) }
        ensures { result ≡ single t x }
    {
        Sizes {
            t: t as u8,
            x: x as u8,
            u: 1,
            y: 1,
        }
    }
}
