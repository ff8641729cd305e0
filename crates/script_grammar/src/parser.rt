ghost use Rattle.std.specs.Prelude.{◌≡◌, [], ◌≤◌, true, length, IfOk, IfErr};
ghost use Rattle.script_grammar.specs.declared.tree.Script.{Script};
ghost use Rattle.script_grammar.specs.Forms.{Reads};
ghost use Rattle.script_grammar.specs.Halts.{Halts};
ghost use Rattle.script_grammar.specs.Refusals.{IsFaultOf};
ghost use Rattle.script_grammar.specs.Spelling.{spell};
ghost use Rattle.script_grammar.specs.StatementForms.{script_form};
ghost use Rattle.script_grammar.specs.WrittenStatements.{is_written};

mod blocks;
mod expressions;
mod items;
mod places;
mod statements;
#[cfg(test)]
mod tests;
mod tokens;

use crate::halt::Halt;
use crate::parser::items::{add, declaration_at};
use crate::tree::Script;
use script_tokens::Token;
use sqlite_items::Items;
use std::alloc::{AllocError, Global};
use thiserror::Error;

/// Why tokens are no script's.
#[derive(Debug, Drop, Error)]
pub enum ParseFault {
    /// The token with this number is the first with which no script goes on; where it is the number of tokens,
    /// further ones are missing.
    #[error("no script goes on with token {0}")]
    Syntax(u32),
    /// Memory was refused.
    #[error("out of memory")]
    Memory,
}

impl From<AllocError> for ParseFault {
    ghost use Rattle.std.specs.Prelude.{◌≡◌};
    ghost use Rattle.script_grammar.specs.declared.parser.ParseFault.TheVariants as fault;

    ghost from_gives = { λ _ e. e ≡ fault.Memory };

    fn from(_error: AllocError) -> ParseFault {
        ParseFault::Memory
    }
}

/// The script that these tokens spell, and no token after it.
///
/// Where they spell none, [`Halt::Stop`] hands back those from the first one on with which no script goes on,
/// or none where further ones are missing at the end. Where memory was refused, [`Halt::Memory`] comes.
fn script_at(alloc: Global, tokens: &[Token]) -> Result<Script, Halt<'_>>
    requires few { length tokens.now ≤ 1048576 }
    ensures read { IfOk result (λ s. Reads script_form tokens.now s []) }
    ensures stop { IfErr result (λ h. Halts script_form tokens.now h) }
{
    let mut script = Script {
        items: Items::new(alloc),
        shared: Items::new(alloc),
        functions: Items::new(alloc),
        tasks: Items::new(alloc),
    };
    let mut rest = tokens;
    'row: while !rest.is_empty() {
        let (declaration, more) = declaration_at(alloc, rest)?;
        add(&mut script, declaration)?;
        rest = more;
    }
    Ok(script)
}

/// The script that these tokens spell; there is one at most.
///
/// Where they spell none, [`ParseFault::Syntax`] says the number of the first token with which no script goes on,
/// or the number of tokens where further ones are missing. Where memory was refused, [`ParseFault::Memory`] comes.
/// The tokens are at most as many as the bytes that a script may have, so that the numbers of items and tokens fit.
pub fn parse(alloc: Global, tokens: &[Token]) -> Result<Script, ParseFault>
    requires few { length tokens.now ≤ 1048576 }
    ensures spelled { IfOk result (λ s. spell s ≡ tokens.now) }
    ensures written { IfOk result (λ s. is_written s ≡ true) }
    ensures only { IfOk result (λ s. (t : Script) → is_written t ≡ true → spell t ≡ tokens.now → t ≡ s) }
    ensures refused { IfErr result (λ e. IsFaultOf tokens.now e) }
{
    match script_at(alloc, tokens) {
        Ok(script) => Ok(script),
        Err(Halt::Stop(rest)) => Err(ParseFault::Syntax((tokens.len() - rest.len()) as u32)),
        Err(Halt::Memory) => Err(ParseFault::Memory),
    }
}
