//! The words of a subcommand.

ghost use Rattle.std.specs.Prelude.{◌≡◌, IfOk, false};
ghost use Rattle.clap.specs.Words.{app_of, rule_of};
ghost use Rattle.milter_command_line.specs.Words.{IsLocal, app_in, option_rule, rule_of_word, valued_rule};

use clap::builder::ValueParser;
use clap::{Arg, ArgAction, Command};
use std::alloc::{AllocError, Global};

/// What a word of a subcommand is.
#[derive(Clone, Copy)]
pub(crate) enum Kind<'a> {
    /// A word that has to be there.
    Place,
    /// A word that has to be there, and may be there more than once.
    Places,
    /// A word that may be there any number of times.
    AnyPlaces,
    /// An option with a value.
    Value,
    /// An option with a value, which may be given more than once.
    Values,
    /// An option with a number from 1 to this one.
    Number(u64),
    /// An option with a number from 0 to this one.
    UpTo(u64),
    /// An option with one of these words.
    Choice(&'a [&'a str]),
    /// An option that is given or not.
    Flag,
}

/// A word of a subcommand.
#[derive(Clone, Copy)]
pub(crate) struct Word<'a> {
    /// What it is.
    pub(crate) kind: Kind<'a>,
    /// Its name; that of an option stands after two hyphens.
    pub(crate) name: &'a str,
    /// What help calls its value.
    pub(crate) value: &'a str,
    /// What help says of it.
    pub(crate) help: &'a str,
}

/// A subcommand: its words, and what help says of it.
#[derive(Clone, Copy)]
pub(crate) struct Subcommand<'a, 'w> {
    /// Its name.
    pub(crate) name: &'a str,
    /// What it does, in one line.
    pub(crate) about: &'a str,
    /// What stands below its options in help.
    pub(crate) after: &'a str,
    /// Its words, in the order of help.
    pub(crate) words: &'w [Word<'a>],
}

/// The command that a subcommand is.
pub(crate) fn command_of<'a>(
    alloc: Global,
    subcommand: Subcommand<'a, '_>,
) -> Result<Command<'a>, AllocError>
    ensures shape { IfOk result (λ c. app_of c ≡ app_in subcommand.entry) }
    ensures local { IfOk result IsLocal }
{
    let mut command = Command::new(alloc, subcommand.name)
        .about(subcommand.about)
        .after_long_help(subcommand.after);
    for word in subcommand.words {
        command = command.arg(arg_of(alloc, *word))?;
    }
    Ok(command)
}

/// The argument that a word is.
#[tactic(auto, unfolding(crate::specs::Words::rule_of_kind))]
fn arg_of<'a>(alloc: Global, word: Word<'a>) -> Arg<'a>
    ensures rule { rule_of result ≡ rule_of_word word.entry }
    ensures local { result.global ≡ false }
{
    match word.kind {
        Kind::Place => valued(alloc, word).required(true),
        Kind::Places => valued(alloc, word).required(true).action(ArgAction::Append),
        Kind::AnyPlaces => valued(alloc, word).action(ArgAction::Append),
        Kind::Value => option(alloc, word),
        Kind::Values => option(alloc, word).action(ArgAction::Append),
        Kind::Number(most) => option(alloc, word).value_parser(ValueParser::unsigned(1, most)),
        Kind::UpTo(most) => option(alloc, word).value_parser(ValueParser::unsigned(0, most)),
        Kind::Choice(words) => option(alloc, word).value_parser(ValueParser::Names(words)),
        Kind::Flag => Arg::new(alloc, word.name)
            .long(word.name)
            .action(ArgAction::SetTrue)
            .help(word.help),
    }
}

/// An option with a value.
fn option<'a>(alloc: Global, word: Word<'a>) -> Arg<'a>
    ensures rule { rule_of result ≡ option_rule word.entry.name.now }
    ensures local { result.global ≡ false }
{
    valued(alloc, word).long(word.name)
}

/// A word with a value.
fn valued<'a>(alloc: Global, word: Word<'a>) -> Arg<'a>
    ensures rule { rule_of result ≡ valued_rule word.entry.name.now }
    ensures local { result.global ≡ false }
{
    Arg::new(alloc, word.name)
        .value_name(word.value)
        .action(ArgAction::Set)
        .help(word.help)
}
