ghost use Rattle.std.specs.Prelude.{◌≡◌, ◌≤◌, ℕ, List, None, true, length, IfErr, IfOk, OnOk};
ghost use Rattle.std.specs.List.{list_all};
ghost use Rattle.script_tokens.specs.Refusals.{IsRefused};
ghost use Rattle.script_grammar.specs.Spelling.{spell};
ghost use Rattle.script_grammar.specs.WrittenStatements.{is_written};
ghost use Rattle.script_names.specs.Scripts.{first_bad};
ghost use Rattle.script_sites.specs.Calls.{has_distinct_names};
ghost use Rattle.script_sites.specs.Limits.{IsWithinLimits};
ghost use Rattle.script_sites.specs.Numbering.{IsNumbering};
ghost use Rattle.script_sites.specs.Sites.{function_starts, site_binders, task_starts};
ghost use Rattle.script_program.specs.Programs.{script_of};
ghost use Rattle.script_program.specs.Refusals.{IsFaultOf, IsRefusedScript};
ghost use Rattle.script_program.specs.Scripts.{HasTokens, IsScript, IsShort, Spells};

#[cfg(test)]
mod tests;

use crate::program::Program;
use script_grammar::{ParseFault, Script, parse};
use script_names::first_bad_name;
use script_sites::{LimitFault, Numbering, What, number_sites};
use script_tokens::{LexFault, LexRefused, Token, lex};
use std::alloc::{AllocError, Global};
use thiserror::Error;

/// The most bytes that a script may have.
pub const MOST_BYTES: usize = 1_048_576;

/// Why bytes are no script, in the order in which this is judged. Bytes are counted from 0, and so are tokens.
#[derive(Clone, Copy, Debug, PartialEq, Eq)]
pub enum ScriptRefused {
    /// There are more than [`MOST_BYTES`] bytes.
    TooLong,
    /// The bytes are no UTF-8: the first sequence that is broken begins at this byte.
    NotText(u32),
    /// At this byte begins the first thing that is no blank, no comment and no token.
    BadToken(u32),
    /// The token of this number is the first opening bracket at which too many stand open.
    TooDeep(u32),
    /// The token of this number is the first with which no script goes on; where it is the number of tokens, further
    /// ones are missing.
    Syntax(u32),
    /// The token of this number is the first name that breaks a rule.
    BadName(u32),
    /// Of these there are more than a script may have.
    TooMany(What),
}

/// Why [`read`] gave no program.
#[derive(Debug, Drop, Error)]
pub enum ReadFault {
    /// The bytes are no script.
    #[error("the script is refused")]
    Refused(ScriptRefused),
    /// Memory was refused.
    #[error("out of memory")]
    Memory,
}

impl From<AllocError> for ReadFault {
    ghost use Rattle.std.specs.Prelude.{◌≡◌};
    ghost use Rattle.script_program.specs.declared.reading.ReadFault.TheVariants as fault;

    ghost from_gives = { λ _ e. e ≡ fault.Memory };

    fn from(_error: AllocError) -> ReadFault {
        ReadFault::Memory
    }
}

/// Reads a script: the program of the one script that has these bytes.
///
/// # Errors
///
/// [`ReadFault::Refused`] says why the bytes are no script: of the causes of [`ScriptRefused`] the first that holds,
/// each judged over all bytes before the next. [`ReadFault::Memory`] comes where memory was refused, whatever the
/// bytes are.
pub fn read(alloc: Global, bytes: &[u8]) -> Result<Program, ReadFault>
    ensures script { IfOk result (λ p. IsScript bytes.now (script_of p)) }
    ensures refused { IfErr result (λ f. IsFaultOf bytes.now f) }
{
    let tokens = tokens_of(alloc, bytes)?;
    let script = spelled(alloc, tokens.as_slice())?;
    judge_names(alloc, &script)?;
    let numbering = numbered(alloc, &script)?;
    Ok(Program::of(script, numbering))
}

/// The tokens of the bytes, where these are not too many.
fn tokens_of(alloc: Global, bytes: &[u8]) -> Result<Vec<Token>, ReadFault>
    ensures short { OnOk result (IsShort bytes.now) }
    ensures tokens { IfOk result (λ ts. HasTokens bytes.now ts.items) }
    ensures few { IfOk result (λ ts. length ts.items ≤ 1048576) }
    ensures refused { IfErr result (λ f. IsFaultOf bytes.now f) }
{
    if bytes.len() > MOST_BYTES {
        return Err(ReadFault::Refused(ScriptRefused::TooLong));
    }
    match lex(alloc, bytes) {
        Ok(placed) => Ok(placed.tokens),
        Err(LexFault::Refused(refused)) => Err(ReadFault::Refused(no_tokens(refused))),
        Err(LexFault::Memory) => Err(ReadFault::Memory),
    }
}

/// The refusal of bytes that have no tokens.
fn no_tokens(refused: LexRefused) -> ScriptRefused
    ensures { (bytes : List ℕ) → IsShort bytes → IsRefused bytes refused → IsRefusedScript bytes result }
{
    match refused {
        LexRefused::NotText(place) => ScriptRefused::NotText(place),
        LexRefused::BadToken(place) => ScriptRefused::BadToken(place),
        LexRefused::TooDeep(number) => ScriptRefused::TooDeep(number),
    }
}

/// The script that the tokens spell.
fn spelled(alloc: Global, tokens: &[Token]) -> Result<Script, ReadFault>
    requires few { length tokens.now ≤ 1048576 }
    ensures spelled { IfOk result (λ s. spell s ≡ tokens.now) }
    ensures written { IfOk result (λ s. is_written s ≡ true) }
    ensures refused { (bytes : List ℕ) → IsShort bytes → HasTokens bytes tokens.now →
        IfErr result (λ f. IsFaultOf bytes f) }
{
    match parse(alloc, tokens) {
        Ok(script) => Ok(script),
        Err(ParseFault::Syntax(number)) => Err(ReadFault::Refused(ScriptRefused::Syntax(number))),
        Err(ParseFault::Memory) => Err(ReadFault::Memory),
    }
}

/// Judges the names of the script.
fn judge_names(alloc: Global, script: &Script) -> Result<(), ReadFault>
    requires few { length (spell script.now) ≤ 1048576 }
    ensures named { OnOk result (first_bad script.now ≡ None) }
    ensures distinct { OnOk result (list_all has_distinct_names (site_binders script.now) ≡ true) }
    ensures refused { (bytes : List ℕ) → Spells bytes script.now → IfErr result (λ f. IsFaultOf bytes f) }
{
    match first_bad_name(alloc, script)? {
        Some(number) => Err(ReadFault::Refused(ScriptRefused::BadName(number as u32))),
        None => Ok(()),
    }
}

/// The numbering of a script whose names keep the rules.
fn numbered(alloc: Global, script: &Script) -> Result<Numbering, ReadFault>
    requires distinct { list_all has_distinct_names (site_binders script.now) ≡ true }
    ensures limits { OnOk result (IsWithinLimits script.now) }
    ensures numbers { IfOk result (λ n. IsNumbering (site_binders script.now) n.sites n.binders) }
    ensures functions { IfOk result (λ n. n.function_starts ≡ function_starts script.now) }
    ensures tasks { IfOk result (λ n. n.task_starts ≡ task_starts script.now) }
    ensures refused { (bytes : List ℕ) → Spells bytes script.now → first_bad script.now ≡ None →
        IfErr result (λ f. IsFaultOf bytes f) }
{
    match number_sites(alloc, script) {
        Ok(numbering) => Ok(numbering),
        Err(LimitFault::TooMany(what)) => Err(ReadFault::Refused(ScriptRefused::TooMany(what))),
        Err(LimitFault::Memory) => Err(ReadFault::Memory),
    }
}
