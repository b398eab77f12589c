//! Blanks and signs of texts.

ghost use Rattle.std.specs.Prelude.{◌≡◌, ◌<◌, ◌^◌};
ghost use Rattle.fx_nums.specs.Signs.{is_blank, signed};

/// Whether the byte is a space, a tab, a carriage return or a line feed.
pub fn is_blank(byte: u8) -> bool
    ensures { result ≡ is_blank byte }
{
    byte == b' ' || byte == b'\t' || byte == b'\r' || byte == b'\n'
}

/// A magnitude with its sign.
pub fn signed(negative: bool, magnitude: u64) -> i64
    requires { magnitude < 2 ^ 63 }
    ensures { result ≡ signed negative magnitude }
{
    let number = magnitude as i64;
    if negative { -number } else { number }
}
