ghost use Rattle.std.specs.Prelude.{◌≡◌, ◌≢◌, [], Err, IfOk, None, Some, option_map};
ghost use Rattle.command_words.specs.Commands.{AreWithinLimits, IsWithinLimits, command_of};
ghost use Rattle.command_words.specs.Commands.{Given, number_within, options_by, options_given};
ghost use Rattle.command_words.specs.Parsers.{HasGiven};

use crate::numbers::number_in;
use crate::parsing::{check_command, parsed, run_command, texts_of};
use clap::ArgMatches;
use dyn_value::DynText;
use std::alloc::{AllocError, Global};
use thiserror::Error;

/// What the words ask for.
#[derive(Clone, Copy, Debug)]
pub enum Command {
    /// The script is run.
    Run(Options),
    /// The script is only read.
    Check,
}

/// What is asked of a run.
#[derive(Clone, Copy, Debug)]
pub struct Options {
    /// The tasks run one after the other, and not beside each other.
    pub serial: bool,
    /// The objects' journals are written.
    pub journal: bool,
    /// The turns that a task may take, from 1 to 1,000,000.
    pub turns: u32,
    /// The objects that may be made beside the shared ones, at most 4,032.
    pub objects: u32,
}

/// Why words gave no command.
#[derive(Clone, Copy, Debug, Error)]
pub enum WordsRefused {
    /// The words are no command.
    #[error("the words are no command")]
    Bad,
    /// Memory ran out before the words were read.
    #[error("out of memory")]
    Memory,
}

impl From<AllocError> for WordsRefused {
    ghost use Rattle.command_words.specs.declared.words.WordsRefused.TheVariants.{Memory};

    ghost from_gives = { λ _ refused. refused ≡ Memory };

    fn from(_: AllocError) -> WordsRefused {
        WordsRefused::Memory
    }
}

/// What the words ask for; `clap` reads those after the first. The error is [`WordsRefused::Bad`] only where they are
/// no command, and [`WordsRefused::Memory`] only for want of memory.
pub fn read_words(alloc: Global, words: &[DynText]) -> Result<Command, WordsRefused>
    ensures command { IfOk result (λ c. command_of words.now ≡ Some c) }
    ensures limits { IfOk result IsWithinLimits }
    ensures refused { result ≡ Err WordsRefused.Bad → command_of words.now ≡ None }
{
    match words {
        [word, rest @ ..] if word.as_str() == "run" => Ok(Command::Run(options_in(alloc, rest)?)),
        [word, rest @ ..] if word.as_str() == "check" => {
            nothing_in(alloc, rest)?;
            Ok(Command::Check)
        }
        _ => Err(WordsRefused::Bad),
    }
}

/// The options of these words, in any order, each at most once.
fn options_in(alloc: Global, words: &[DynText]) -> Result<Options, WordsRefused>
    ensures options { IfOk result (λ o. options_given words.now ≡ Some o) }
    ensures limits { IfOk result AreWithinLimits }
    ensures refused { result ≡ Err WordsRefused.Bad → options_given words.now ≡ None }
{
    let texts = texts_of(alloc, words)?;
    let command = run_command(alloc)?;
    let matches = parsed(command, texts.as_slice())?;
    options_of(&matches).ok_or(WordsRefused::Bad)
}

/// There is no word.
fn nothing_in(alloc: Global, words: &[DynText]) -> Result<(), WordsRefused>
    ensures none { IfOk result (λ _. words.now ≡ []) }
    ensures refused { result ≡ Err WordsRefused.Bad → words.now ≢ [] }
{
    let texts = texts_of(alloc, words)?;
    let command = check_command(alloc);
    parsed(command, texts.as_slice())?;
    Ok(())
}

/// The options that were found, with the numbers that their texts write.
fn options_of(matches: &ArgMatches<'_>) -> Option<Options>
    ensures { (g : Given) → HasGiven g matches.now → result ≡ options_by g }
{
    let turns = number_within(matches.get_str("turns"), 1, 1_000_000, 100_000)?;
    let objects = number_within(matches.get_str("objects"), 0, 4032, 4032)?;
    Some(Options {
        serial: matches.get_flag("serial"),
        journal: matches.get_flag("journal"),
        turns,
        objects,
    })
}

/// The number from `low` to `high` that the text writes; `default` where there is no text.
fn number_within(text: Option<&str>, low: u32, high: u32, default: u32) -> Option<u32>
    ensures { result ≡ number_within low high default (option_map (λ t. t.now) text.entry) }
{
    let Some(text) = text else {
        return Some(default);
    };
    let number = number_in(text)?;
    if number < u64::from(low) || number > u64::from(high) {
        return None;
    }
    Some(number as u32)
}
