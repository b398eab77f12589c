ghost use Rattle.std.specs.Prelude.{◌≡◌, ◌<◌, ◌≤◌, OnOk, OnErr, IfOk, length, take};
ghost use Rattle.fx_io.specs.Causes.{HasCause};
ghost use Rattle.fx_tool.specs.Writing.{GrowsBy, GrowsByPrefix};

use fx_io::{IoFault, Sink};

// Puts the first bytes of a text, at least one, and says how many.
fn put_some<K: Sink>(out: &mut K, text: &[u8]) -> Result<usize, IoFault>
    requires { 0 < length text.now }

    ensures some { IfOk result (λ n. (0 < n) × (n ≤ length text.now)) }
    ensures told { IfOk result (λ n. GrowsBy (take n text.now) (K.seen out.old).told (K.seen out.new).told) }
    ensures same { OnErr result ((K.seen out.new).told ≡ (K.seen out.old).told) }
    ensures cause { HasCause (K.seen out.old).faults (K.seen out.new).faults result }
{
    let count = out.put(text)?;
    if count == 0 {
        return Err(IoFault::Failed);
    }
    Ok(count)
}

/// Puts a whole text, or the first bytes of it.
///
/// # Errors
///
/// `Failed` just where the sink's count of faults rose.
pub fn put_all<K: Sink>(out: &mut K, text: &[u8]) -> Result<(), IoFault>
    ensures whole { OnOk result (GrowsBy text.now (K.seen out.old).told (K.seen out.new).told) }
    ensures prefix { GrowsByPrefix text.now (K.seen out.old).told (K.seen out.new).told }
    ensures cause { HasCause (K.seen out.old).faults (K.seen out.new).faults result }
{
    let mut rest = text;
    'rest: while !rest.is_empty() {
        let count = put_some(out, rest)?;
        rest = &rest[count..];
    }
    Ok(())
}
