//! What is told of many words.

ghost use Rattle.std.specs.Prelude.{◌≡◌, ◌+ℤ◌, ◌≤◌, ◌^◌, unsigned_abs, int_lt, if◌then◌else◌};

/// The least, the greatest and the sum of words.
#[derive(Clone, Copy)]
pub struct Summary {
    pub least: i64,
    pub greatest: i64,
    pub sum: i128,
}

impl Summary {
    // That of one word.
    pub(crate) fn of(word: i64) -> Summary
        ensures { result ≡ record { least = word; greatest = word; sum = word } }
    {
        Summary {
            least: word,
            greatest: word,
            sum: i128::from(word),
        }
    }

    // Takes one word more.
    pub(crate) fn take(&mut self, word: i64)
        requires { unsigned_abs self.old.sum ≤ 2 ^ 126 }
        ensures least { self.new.least ≡ (if int_lt word self.old.least then word else self.old.least) }
        ensures greatest { self.new.greatest
            ≡ (if int_lt self.old.greatest word then word else self.old.greatest) }
        ensures sum { self.new.sum ≡ self.old.sum +ℤ word }
    {
        if word < self.least {
            self.least = word;
        }
        if word > self.greatest {
            self.greatest = word;
        }
        self.sum = added(self.sum, word);
    }
}

// A sum with one word more.
fn added(sum: i128, word: i64) -> i128
    requires { unsigned_abs sum ≤ 2 ^ 126 }
    ensures { result ≡ sum +ℤ word }
{
    sum + i128::from(word)
}
