//! Texts at keys.

ghost use Rattle.std.specs.Prelude.{◌≡◌};
ghost use Rattle.toml.specs.View.{view};
ghost use Rattle.fx_keys.specs.Faults.{seen};
ghost use Rattle.fx_keys.specs.Words.{text_at};

use crate::fault::FilterFault;
use crate::key::Key;
use toml::Value;

/// The text that a key's value is, or `WrongKind`.
pub fn text_at(value: &Value, key: Key) -> Result<&str, FilterFault>
    ensures { seen (λ s. s.now) result ≡ text_at key (view value.now) }
{
    value.as_str().ok_or(FilterFault::WrongKind(key))
}
