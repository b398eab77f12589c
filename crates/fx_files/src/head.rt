//! The form of a file, and which keys it may have.

ghost use Rattle.std.specs.Prelude.{◌≡◌};
ghost use Rattle.toml.specs.View.{table_view};
ghost use Rattle.fx_math.specs.Answers.{Gives};
ghost use Rattle.fx_keys.specs.Faults.{is_memory};
ghost use Rattle.fx_keys.specs.Table.{only_keys};
ghost use Rattle.fx_files.specs.Head.{form_in, head_in};
ghost use Rattle.fx_files.specs.Forms.{known_keys};

use crate::forms::Form;
use fx_keys::{FilterFault, Key, needed, only_keys, text_at};
use std::alloc::Global;
use toml::Table;

fn form_of(table: &Table) -> Result<Form, FilterFault>
    ensures { result ≡ form_in (table_view table.now) }
{
    let word = text_at(needed(table, Key::Form)?, Key::Form)?;
    Form::of_word(word).ok_or(FilterFault::UnknownWord(Key::Form))
}

// The keys that files of each form may have.
const SHARED_KEYS: [Key; 11] = [
    Key::Form,
    Key::InputLow,
    Key::Inputs,
    Key::Outputs,
    Key::Structure,
    Key::Rounding,
    Key::Accumulator,
    Key::Word,
    Key::Guards,
    Key::Fractions,
    Key::Lengths,
];

/// The form, where no key is unknown to it.
#[tactic(auto, unfolding(crate::specs::Head::head_in))]
pub(crate) fn head_of(alloc: Global, table: &Table) -> Result<Form, FilterFault>
    ensures { Gives is_memory (λ f. f) result (head_in (table_view table.now)) }
{
    let form = form_of(table)?;
    only_known(alloc, table, form)?;
    Ok(form)
}

// Keys of other forms are unknown.
fn only_known(alloc: Global, table: &Table, form: Form) -> Result<(), FilterFault>
    ensures { Gives is_memory (λ _. tt) result (only_keys (known_keys form) (table_view table.now)) }
{
    only_keys(alloc, table, &SHARED_KEYS, form.keys())
}
