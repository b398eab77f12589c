//! The number that a word writes.
ghost use Rattle.std.specs.Prelude.{◌≡◌, IsTrue};
ghost use Rattle.std.specs.Str.{all_ascii_digits};
ghost use Rattle.std.specs.Str.Parse.{digits_value};
ghost use Rattle.fx_words.specs.Command.{texts};
ghost use Rattle.fx_words.specs.Number.{is_number, is_one_number, number_of};

fn are_digits(bytes: &[u8]) -> bool
    ensures { result ≡ all_ascii_digits bytes.now }
{
    match bytes {
        [] => true,
        [byte, rest @ ..] => byte.is_ascii_digit() && are_digits(rest),
    }
}

/// The number of 1 to 10 decimal digits, zeros before others among them, of value at most 4294967295.
pub fn number_of(word: &str) -> Option<u32>
    ensures { result ≡ number_of word.now }
{
    if word.len() > 10 || !are_digits(word.as_bytes()) {
        return None;
    }
    word.parse().ok()
}

/// The number of a word that writes one.
pub fn given_number(word: &str) -> u32
    requires { IsTrue (is_number word.now) }
    ensures { result ≡ digits_value 10 word.now }
{
    match number_of(word) {
        Some(number) => number,
        None => unreachable!(),
    }
}

// Whether this is one word, which writes a number.
pub(crate) fn is_one_number(words: &[String]) -> bool
    ensures { result ≡ is_one_number (texts words.now) }
{
    match words {
        [word] => number_of(word.as_str()).is_some(),
        _ => false,
    }
}
