//! The implicit form of a state space.

ghost use Rattle.std.specs.Prelude.{◌≡◌, ◌≤◌, ◌+◌, ◌*◌, ◌++◌, length, OnOk, IfOk};
ghost use Rattle.fx_sif.specs.SameOutputs.{HasOutputs};
ghost use Rattle.fx_space.specs.Matrices.{SpaceFits};
ghost use Rattle.fx_space.specs.Space.{block_of, space_equations, space_form};

use crate::laws::{space_is_never_refused, space_keeps_the_outputs};
use fx_eqs::STATES;
use fx_nums::Frac;
use fx_sif::{Block, Entry, Sif, Sizes, add_across};
use std::alloc::{AllocError, Global};

// A matrix of so many rows and columns as a block.
#[tactic(auto, using(crate::proofs::Rows::joined_next))]
fn add_matrix(
    entries: &mut Vec<Entry>,
    block: Block,
    rows: usize,
    columns: usize,
    matrix: &[Frac],
) -> Result<(), AllocError>
    requires rows { rows ≤ STATES }
    requires columns { columns ≤ STATES }
    requires count { length matrix.now ≡ rows * columns }
    ensures { OnOk result (entries.new.items ≡ entries.old.items ++ block_of block rows columns matrix.now) }
{
    for i in 0..rows {
        add_across(entries, block, i, 0, &matrix[i * columns..][..columns])?;
    }
    Ok(())
}

/// The state space x' = A x + B u, y = C x + D u as a form without intermediate variables: `sizes.t` is 0,
/// with up to `STATES` states and 1 to `PORTS` inputs and outputs. `abcd` has the entries of A, B, C and D,
/// each row after row. Its error is want of memory.
pub fn space(alloc: Global, sizes: Sizes, abcd: &[Frac]) -> Result<Sif, AllocError>
    requires { SpaceFits sizes abcd.now }
    ensures value { IfOk result (λ s. s ≡ space_form sizes abcd.now) }
    ensures same { IfOk result (λ s. HasOutputs s (space_equations sizes abcd.now)) }
{
    let (n, m, p) = (
        usize::from(sizes.x),
        usize::from(sizes.u),
        usize::from(sizes.y),
    );
    let (b_at, c_at, d_at) = (n * n, n * n + n * m, n * n + n * m + p * n);
    let mut entries = Vec::new(alloc);
    add_matrix(&mut entries, Block::P, n, n, &abcd[..b_at])?;
    add_matrix(&mut entries, Block::Q, n, m, &abcd[b_at..c_at])?;
    add_matrix(&mut entries, Block::R, p, n, &abcd[c_at..d_at])?;
    add_matrix(&mut entries, Block::S, p, m, &abcd[d_at..])?;
    space_is_never_refused(sizes, abcd);
    space_keeps_the_outputs(sizes, abcd);
    Sif::build_unrefused(alloc, sizes, &entries)
}
