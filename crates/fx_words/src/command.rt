//! The commands: their words and operands, and the command of words in the plain form.
ghost use Rattle.std.specs.Prelude.{◌≡◌, option_map, map};
ghost use Rattle.std.specs.List.{list_all};
ghost use Rattle.fx_words.specs.Command.{
  allows,
  are_different,
  is_among,
  is_plain,
  named,
  names_fit,
  operand_words,
  operands_of,
  plain_of,
  targets_of,
  texts,
  verb_in,
  verb_of,
  with_names,
  word_of,
};

use crate::number::is_one_number;
use crate::operand::Operand;

/// A command.
#[derive(Clone, Copy)]
pub enum Verb {
    /// Judges a filter, a program and a certificate.
    Check,
    /// Finds the peak gains of a filter.
    Gain,
    /// Runs the job of a number.
    Large,
    /// Makes a program and a certificate for a filter.
    Make,
    /// Judges them, and tells what the errors are made of.
    Report,
    /// Shows a filter.
    Show,
    /// Runs a program on samples.
    Simulate,
}

/// Each command.
pub const VERBS: [Verb; 7] = [
    Verb::Check,
    Verb::Gain,
    Verb::Large,
    Verb::Make,
    Verb::Report,
    Verb::Show,
    Verb::Simulate,
];

impl Verb {
    /// Its word on the command line.
    pub fn word(self) -> &'static str
        ensures { result.now ≡ word_of self }
    {
        match self {
            Verb::Check => "check",
            Verb::Gain => "gain",
            Verb::Large => "large",
            Verb::Make => "make",
            Verb::Report => "report",
            Verb::Show => "show",
            Verb::Simulate => "simulate",
        }
    }

    /// Its operands, by the words that the usage line has for them.
    pub fn operand_words(self) -> &'static [&'static str]
        ensures { map (λ w. w.now) result.now ≡ operand_words self }
    {
        match self {
            Verb::Check | Verb::Make | Verb::Report => &["FILTER", "CODE", "CERT"],
            Verb::Gain | Verb::Show => &["FILTER"],
            Verb::Large => &["NUMBER"],
            Verb::Simulate => &["CODE", "SAMPLES"],
        }
    }

    /// The files that it reads: the first of its operands.
    pub fn operands(self) -> &'static [Operand]
        ensures { result.now ≡ operands_of self }
    {
        match self {
            Verb::Check | Verb::Report => {
                &[Operand::Filter, Operand::Code, Operand::Certificate]
            }
            Verb::Gain | Verb::Make | Verb::Show => &[Operand::Filter],
            Verb::Large => &[],
            Verb::Simulate => &[Operand::Code, Operand::Samples],
        }
    }

    /// The names of the files that it places, of those that were given for its operands.
    pub fn targets(self, names: &[String]) -> &[String]
        ensures { texts result.now ≡ targets_of self (texts names.now) }
    {
        match (self, names) {
            (Verb::Make, [_, targets @ ..]) => targets,
            _ => &[],
        }
    }

    // What it wants of its operands beside their count: that of `large` is a number, and no two files of `make` have
    // the same name.
    fn allows(self, names: &[String]) -> bool
        ensures { result ≡ allows self (texts names.now) }
    {
        match self {
            Verb::Large => is_one_number(names),
            Verb::Make => are_different(names),
            _ => true,
        }
    }
}

// The first of these commands with this word.
#[tactic(auto, unfolding(crate::specs::Command::verb_in))]
fn verb_in(verbs: &[Verb], word: &str) -> Option<Verb>
    ensures { result ≡ verb_in verbs.now word.now }
{
    match verbs {
        [] => None,
        [verb, rest @ ..] => {
            if verb.word() == word {
                Some(*verb)
            } else {
                verb_in(rest, word)
            }
        }
    }
}

// The command with this word.
pub(crate) fn verb_of(word: &str) -> Option<Verb>
    ensures { result ≡ verb_of word.now }
{
    verb_in(&VERBS, word)
}

// Whether a word may name a file.
fn is_plain(word: &str) -> bool
    ensures { result ≡ is_plain word.now }
{
    !word.is_empty() && !word.as_bytes().starts_with(b"-")
}

fn are_plain(names: &[String]) -> bool
    ensures { result ≡ list_all is_plain (texts names.now) }
{
    match names {
        [] => true,
        [name, rest @ ..] => is_plain(name.as_str()) && are_plain(rest),
    }
}

fn is_among(names: &[String], name: &str) -> bool
    ensures { result ≡ is_among (texts names.now) name.now }
{
    match names {
        [] => false,
        [other, rest @ ..] => other.as_str() == name || is_among(rest, name),
    }
}

// Whether no two are equal.
fn are_different(names: &[String]) -> bool
    ensures { result ≡ are_different (texts names.now) }
{
    match names {
        [] => true,
        [name, rest @ ..] => !is_among(rest, name.as_str()) && are_different(rest),
    }
}

/// A command with what was given for its operands.
#[derive(Clone, Copy)]
pub struct Command<'a> {
    pub verb: Verb,
    pub names: &'a [String],
}

// Whether these are as many as the command has operands, and such as it allows.
pub(crate) fn names_fit(verb: Verb, names: &[String]) -> bool
    ensures { result ≡ names_fit verb (texts names.now) }
{
    names.len() == verb.operand_words().len() && verb.allows(names)
}

// The command with these names, where they fit.
fn with_names(verb: Verb, names: &[String]) -> Option<Command<'_>>
    ensures { option_map named result ≡ with_names (texts names.now) verb }
{
    if names_fit(verb, names) {
        Some(Command { verb, names })
    } else {
        None
    }
}

/// The command of words in the plain form: the program's name, the command's and exactly its operands, none of them
/// empty, none beginning with `-`.
#[tactic(auto, unfolding(crate::specs::Command::plain_of))]
pub fn plain_command(words: &[String]) -> Option<Command<'_>>
    ensures { option_map named result ≡ plain_of (texts words.now) }
{
    let [_, word, names @ ..] = words else {
        return None;
    };
    if !are_plain(names) {
        return None;
    }
    with_names(verb_of(word.as_str())?, names)
}
