//! What the words of a command line ask for: in the plain form, or as clap reads them.
ghost use Rattle.std.specs.Prelude.{◌≡◌, map, option_map, option_and_then, IfOk, false};
ghost use Rattle.clap.specs.Words.{app_of, found_of, rows_of, rule_of, subcommand_rows_of, with_subcommand};
ghost use Rattle.clap.specs.declared.builder.command.Command.TheViews.{out-Command as fields_of};
ghost use Rattle.fx_words.specs.Command.{named, texts, with_names};
ghost use Rattle.fx_words.specs.Words.{
  asked_of,
  bare_tool,
  command_of,
  found_command,
  operand,
  read_named,
  read_of,
  tool_app,
  value_of,
  verb_app,
  with_operands,
  with_verbs,
  ClapAgrees,
  CommandsAreWhole,
  FaultlessIsCommand,
  FaultyIsNone,
  PlainIsCommand,
};

use crate::command::{Command, VERBS, Verb, names_fit, plain_command, verb_of};
use clap::error::ErrorKind;
use clap::{Arg, ArgMatches};
use std::alloc::{AllocError, Global};

// A required operand.
fn operand<'a>(alloc: Global, id: &'a str) -> Arg<'a>
    ensures rule { rule_of result ≡ operand id.entry.now }
    ensures local { result.global ≡ false }
{
    Arg::new(alloc, id).required(true)
}

// The command with these operands behind its own.
#[tactic(auto, unfolding(crate::specs::Words::with_operands))]
fn with_operands<'a>(
    alloc: Global,
    command: clap::Command<'a>,
    ids: &'a [&'a str],
) -> Result<clap::Command<'a>, AllocError>
    requires { (fields_of command).has_globals ≡ false }
    ensures shape { IfOk result (λ c.
        app_of c ≡ with_operands (map (λ w. w.now) ids.entry.now) (app_of command.entry)) }
    ensures local { IfOk result (λ c. (fields_of c).has_globals ≡ false) }
{
    match ids {
        [] => Ok(command),
        [id, rest @ ..] => {
            let command = command.arg(operand(alloc, *id))?;
            with_operands(alloc, command, rest)
        }
    }
}

// A command of the tool.
#[tactic(auto, unfolding(crate::specs::Words::verb_app))]
fn verb_command<'a>(alloc: Global, verb: Verb) -> Result<clap::Command<'a>, AllocError>
    ensures shape { IfOk result (λ c. app_of c ≡ verb_app verb) }
    ensures local { IfOk result (λ c. (fields_of c).has_globals ≡ false) }
{
    let word: &'a str = verb.word();
    let ids: &'a [&'a str] = verb.operand_words();
    with_operands(alloc, clap::Command::new(alloc, word), ids)
}

// The tool with this command behind its own.
fn with_verb<'a>(
    alloc: Global,
    tool: clap::Command<'a>,
    verb: Verb,
) -> Result<clap::Command<'a>, AllocError>
    ensures { IfOk result (λ c. app_of c ≡ with_subcommand (app_of tool.entry) (verb_app verb).top) }
{
    tool.subcommand(verb_command(alloc, verb)?)
}

// The tool with these commands behind its own.
#[tactic(auto, unfolding(crate::specs::Words::with_verbs))]
fn with_verbs<'a>(
    alloc: Global,
    tool: clap::Command<'a>,
    verbs: &[Verb],
) -> Result<clap::Command<'a>, AllocError>
    ensures { IfOk result (λ c. app_of c ≡ with_verbs verbs.now (app_of tool.entry)) }
{
    match verbs {
        [] => Ok(tool),
        [verb, rest @ ..] => {
            let tool = with_verb(alloc, tool, *verb)?;
            with_verbs(alloc, tool, rest)
        }
    }
}

// The tool with no command yet.
fn bare_tool<'a>(alloc: Global) -> clap::Command<'a>
    ensures { app_of result ≡ bare_tool }
{
    clap::Command::new(alloc, "fixif")
        .subcommand_required(true)
        .disable_help_subcommand(true)
}

fn tool<'a>(alloc: Global) -> Result<clap::Command<'a>, AllocError>
    ensures { IfOk result (λ c. app_of c ≡ tool_app) }
{
    with_verbs(alloc, bare_tool(alloc), &VERBS)
}

/// A command with names of its own: the values that clap found for its operands.
#[derive(Drop)]
pub struct ReadCommand {
    pub verb: Verb,
    pub names: Vec<String>,
}

// The first value of an operand, or the empty word.
fn value<'a>(matches: &ArgMatches<'a>, id: &str) -> &'a str
    ensures { result.now ≡ value_of (rows_of (found_of matches.now)) id.now }
{
    match matches.get_str(id) {
        Some(value) => value,
        None => "",
    }
}

// The values of these operands.
fn values(alloc: Global, matches: &ArgMatches<'_>, ids: &[&str]) -> Result<Vec<String>, AllocError>
    ensures { IfOk result (λ names. texts names.items
        ≡ map (λ id. value_of (rows_of (found_of matches.now)) id) (map (λ w. w.now) ids.now)) }
{
    let mut names = Vec::new(alloc);
    for id in ids {
        names.push(String::from_str(alloc, value(matches, *id))?)?;
    }
    Ok(names)
}

// The command with these names, where they fit.
fn with_values(verb: Verb, names: Vec<String>) -> Option<ReadCommand>
    ensures { option_map read_named result ≡ with_names (texts names.items) verb }
{
    if names_fit(verb, names.as_slice()) {
        Some(ReadCommand { verb, names })
    } else {
        None
    }
}

// The command that was found.
fn found(alloc: Global, matches: &ArgMatches<'_>) -> Result<Option<ReadCommand>, AllocError>
    ensures { IfOk result (λ c. option_map read_named c
        ≡ option_and_then found_command (subcommand_rows_of matches.now)) }
{
    let Some((word, inner)) = matches.subcommand() else {
        return Ok(None);
    };
    let Some(verb) = verb_of(word) else {
        return Ok(None);
    };
    let names = values(alloc, inner, verb.operand_words())?;
    Ok(with_values(verb, names))
}

// The command that clap reads from the words, if it states no fault of them.
fn read_command(alloc: Global, words: &[String]) -> Result<Option<ReadCommand>, AllocError>
    ensures { IfOk result (λ c. option_map read_named c ≡ read_of (texts words.now)) }
{
    match tool(alloc)?.try_get_matches_from(words) {
        Ok(matches) => found(alloc, &matches),
        Err(error) => {
            if error.kind() == ErrorKind::OutOfMemory {
                Err(AllocError)
            } else {
                Ok(None)
            }
        }
    }
}

/// What the words ask for.
#[derive(Drop)]
pub enum Asked<'a> {
    /// They have the plain form of a command.
    Plain(Command<'a>),
    /// They have another form that clap reads.
    Read(ReadCommand),
    /// They are no command.
    Nothing,
}

impl Asked<'_> {
    /// The command, if they are one.
    pub fn command(&self) -> Option<Command<'_>>
        ensures { option_map named result ≡ asked_of self.now }
    {
        match self {
            Asked::Plain(command) => Some(*command),
            Asked::Read(command) => Some(Command {
                verb: command.verb,
                names: command.names.as_slice(),
            }),
            Asked::Nothing => None,
        }
    }
}

/// What the words of a command line ask for: the program's name first.
///
/// # Errors
///
/// Want of memory.
#[tactic(auto, unfolding(crate::specs::Words::command_of))]
pub fn read_words(alloc: Global, words: &[String]) -> Result<Asked<'_>, AllocError>
    ensures { IfOk result (λ a. asked_of a ≡ command_of (texts words.now)) }
{
    if let Some(command) = plain_command(words) {
        return Ok(Asked::Plain(command));
    }
    match read_command(alloc, words)? {
        Some(command) => Ok(Asked::Read(command)),
        None => Ok(Asked::Nothing),
    }
}

/// A law with nothing to run: when words are a command. Those in the plain form always are, and they are what clap
/// reads of them too. So words are one exactly where clap states no fault of them and the command allows its operands:
/// the three files of `make` have different names, and the operand of `large` is a number.
pub fn words_are_a_command()
    ensures plain { PlainIsCommand }
    ensures faultless { FaultlessIsCommand }
    ensures faulty { FaultyIsNone }
    ensures whole { CommandsAreWhole }
    ensures clap { ClapAgrees }
{}
