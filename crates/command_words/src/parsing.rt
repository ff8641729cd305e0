ghost use Rattle.std.specs.Prelude.{◌≡◌, ◌≢◌, [], Err, IfOk, codes, encode_utf8_all, false, map, true};
ghost use Rattle.std.specs.List.{list_all};
ghost use Rattle.clap.specs.Walk.{texts};
ghost use Rattle.clap.specs.Words.{HasMatchesOf, app_of, fault_of, is_simple_and_free, rule_of};
ghost use Rattle.command_words.specs.Parsers.{are_characters, bare_app, flag_rule, has_end_mark, run_app, value_rule};

use crate::words::WordsRefused;
use clap::error::ErrorKind;
use clap::{Arg, ArgAction, ArgMatches, Command};
use dyn_value::DynText;
use std::alloc::{AllocError, Global};

/// The words as UTF-8. The one error is want of memory.
pub(crate) fn texts_of(alloc: Global, words: &[DynText]) -> Result<Vec<&str>, AllocError>
    ensures texts { IfOk result (λ found. texts found.items ≡ map encode_utf8_all words.now) }
    ensures proper { IfOk result (λ _. list_all are_characters words.now ≡ true) }
{
    let mut texts = Vec::new(alloc);
    for word in words {
        texts.push(word.as_str())?;
    }
    Ok(texts)
}

/// What `clap` reads after `run`. The one error is want of memory.
pub(crate) fn run_command<'a>(alloc: Global) -> Result<Command<'a>, AllocError>
    ensures { IfOk result (λ c. app_of c ≡ run_app) }
{
    bare_command(alloc, "run")
        .arg(flag(alloc, "serial"))?
        .arg(flag(alloc, "journal"))?
        .arg(valued(alloc, "turns"))?
        .arg(valued(alloc, "objects"))
}

/// What `clap` reads after `check`: nothing.
pub(crate) fn check_command<'a>(alloc: Global) -> Command<'a>
    ensures { app_of result ≡ bare_app (codes "check") }
{
    bare_command(alloc, "check")
}

/// A command of this name with no option, not even for help, which reads from the first word on.
fn bare_command<'a>(alloc: Global, name: &'a str) -> Command<'a>
    ensures { app_of result ≡ bare_app name.entry.now }
{
    Command::new(alloc, name)
        .no_binary_name(true)
        .disable_help_flag(true)
        .disable_version_flag(true)
}

/// The option `--name`, which has no value.
fn flag<'a>(alloc: Global, name: &'a str) -> Arg<'a>
    ensures rule { rule_of result ≡ flag_rule name.entry.now }
    ensures local { result.global ≡ false }
{
    Arg::new(alloc, name).long(name).action(ArgAction::SetTrue)
}

/// The option `--name`, which has a value.
fn valued<'a>(alloc: Global, name: &'a str) -> Arg<'a>
    ensures rule { rule_of result ≡ value_rule name.entry.now }
    ensures local { result.global ≡ false }
{
    Arg::new(alloc, name).long(name)
}

/// What the command finds in the words. The error is [`WordsRefused::Bad`] where the words have `--` or `clap` refuses
/// them, and [`WordsRefused::Memory`] for want of memory.
pub(crate) fn parsed<'a>(
    command: Command<'a>,
    words: &'a [&'a str],
) -> Result<ArgMatches<'a>, WordsRefused>
    ensures marks { IfOk result (λ _. has_end_mark words.entry.now ≡ false) }
    ensures matches { IfOk result (HasMatchesOf (app_of command.entry) (texts words.entry.now)) }
    ensures passes { is_simple_and_free (app_of command.entry) ≡ true →
        IfOk result (λ _. fault_of (app_of command.entry) (texts words.entry.now) ≡ []) }
    ensures refused { is_simple_and_free (app_of command.entry) ≡ true → result ≡ Err WordsRefused.Bad →
        has_end_mark words.entry.now ≡ false →
        fault_of (app_of command.entry) (texts words.entry.now) ≢ [] }
{
    if has_end_mark(words) {
        return Err(WordsRefused::Bad);
    }
    match command.try_get_matches_from(words) {
        Ok(matches) => Ok(matches),
        Err(error) => Err(match error.kind() {
            ErrorKind::OutOfMemory => WordsRefused::Memory,
            _ => WordsRefused::Bad,
        }),
    }
}

/// Whether a word is `--`, after which `clap` would read no option.
fn has_end_mark(words: &[&str]) -> bool
    ensures { result ≡ has_end_mark words.now }
{
    words.iter().any(|word| *word == "--")
}
