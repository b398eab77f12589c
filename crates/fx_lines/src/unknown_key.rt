// A key that no line names, as a line shows it.

ghost use Rattle.std.specs.Prelude.{◌≡◌, ◌++◌, ◌<◌, true, OnOk};
ghost use Rattle.std.specs.Fmt.{digit_glyph};
ghost use Rattle.fx_lines.specs.UnknownKey.{escaped, is_control, shown_byte, shown_key};

use crate::pieces::put_word;
use std::alloc::AllocError;

fn is_control(byte: u8) -> bool
    ensures { result ≡ is_control byte }
{
    byte < b' ' || byte == b'\x7f'
}

fn hexadecimal(digit: u8) -> u8
    requires { digit < 16 }
    ensures { result ≡ digit_glyph true digit }
{
    if digit < 10 {
        b'0' + digit
    } else {
        b'A' + (digit - 10)
    }
}

fn put_escaped(text: &mut Vec<u8>, byte: u8) -> Result<(), AllocError>
    ensures { OnOk result (text.new.items ≡ text.old.items ++ escaped byte) }
{
    put_word(text, "\\x")?;
    text.push(hexadecimal(byte / 16))?;
    text.push(hexadecimal(byte % 16))?;
    Ok(())
}

fn put_byte(text: &mut Vec<u8>, byte: u8) -> Result<(), AllocError>
    ensures { OnOk result (text.new.items ≡ text.old.items ++ shown_byte byte) }
{
    if is_control(byte) {
        return put_escaped(text, byte);
    }
    text.push(byte)?;
    Ok(())
}

// A key with its control bytes escaped, so that it stays within its line.
pub(crate) fn put_key(text: &mut Vec<u8>, key: &[u8]) -> Result<(), AllocError>
    ensures { OnOk result (text.new.items ≡ text.old.items ++ shown_key key.now) }
{
    for byte in key {
        put_byte(text, *byte)?;
    }
    Ok(())
}
