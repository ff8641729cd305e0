//! Blocks, and the statements that hold some.

ghost use Rattle.std.specs.Prelude.{◌≡◌, ◌∷◌, ◌<◌, ◌≤◌, length, IfOk, IfErr};
ghost use Rattle.script_grammar.specs.Forms.{Reads};
ghost use Rattle.script_grammar.specs.Halts.{Halts};
ghost use Rattle.script_grammar.specs.StatementForms.{stmt_form, stmts_form, block_form, else_form};

use crate::halt::Halt;
use crate::parser::expressions::expr_at;
use crate::parser::statements::{delete_at, let_at, plain_at, print_at, return_at};
use crate::parser::tokens::{after, after_word, name_at, past, past_word};
use crate::tree::{Block, Stmt};
use script_tokens::{Keyword, Symbol, Token};
use sqlite_items::Items;
use std::alloc::Global;

/// The block at the front.
#[cycle(blocks)]
pub fn block_at(alloc: Global, tokens: &[Token]) -> Result<(Block, &[Token]), Halt<'_>>
    ensures read { IfOk result (λ f. Reads block_form tokens.now f.0 f.1.now) }
    ensures stop { IfErr result (λ h. Halts block_form tokens.now h) }
    ensures shorter { IfOk result (λ f. length f.1.now < length tokens.now) }
{
    let rest = after(tokens, Symbol::OpenBrace)?;
    let (stmts, rest) = stmts_at(alloc, rest)?;
    Ok((Block(stmts), rest))
}

/// The statements at the front, up to the brace that closes their block.
#[cycle(blocks)]
fn stmts_at(alloc: Global, tokens: &[Token]) -> Result<(Items<Stmt>, &[Token]), Halt<'_>>
    ensures read { IfOk result (λ f. Reads stmts_form tokens.now f.0 f.1.now) }
    ensures stop { IfErr result (λ h. Halts stmts_form tokens.now h) }
    ensures shorter { IfOk result (λ f. length f.1.now < length tokens.now) }
{
    let mut stmts = Items::new(alloc);
    let mut rest = tokens;
    'row: loop {
        if let Some(rest) = past(rest, Symbol::CloseBrace) {
            return Ok((stmts, rest));
        }
        let (stmt, more) = stmt_at(alloc, rest)?;
        stmts.push(stmt)?;
        rest = more;
    }
}

/// The statement at the front.
#[cycle(blocks)]
fn stmt_at(alloc: Global, tokens: &[Token]) -> Result<(Stmt, &[Token]), Halt<'_>>
    ensures read { IfOk result (λ f. Reads stmt_form tokens.now f.0 f.1.now) }
    ensures stop { IfErr result (λ h. Halts stmt_form tokens.now h) }
    ensures shorter { IfOk result (λ f. length f.1.now < length tokens.now) }
{
    match tokens {
        [Token::Word(Keyword::Let), rest @ ..] => let_at(alloc, rest),
        [Token::Word(Keyword::Delete), rest @ ..] => delete_at(alloc, rest),
        [Token::Word(Keyword::If), rest @ ..] => if_at(alloc, rest),
        [Token::Word(Keyword::While), rest @ ..] => while_at(alloc, rest),
        [Token::Word(Keyword::Return), rest @ ..] => return_at(alloc, rest),
        [Token::Word(Keyword::Print), rest @ ..] => print_at(alloc, rest),
        [Token::Word(Keyword::Try), rest @ ..] => try_at(alloc, rest),
        _ => plain_at(alloc, tokens),
    }
}

/// The statement whose word `if` was taken.
#[cycle(blocks)]
fn if_at(alloc: Global, tokens: &[Token]) -> Result<(Stmt, &[Token]), Halt<'_>>
    ensures read { IfOk result (λ f. Reads stmt_form (Token.Word Keyword.If ∷ tokens.now) f.0 f.1.now) }
    ensures stop { IfErr result (λ h. Halts stmt_form (Token.Word Keyword.If ∷ tokens.now) h) }
    ensures shorter { IfOk result (λ f. length f.1.now < length tokens.now) }
{
    let (test, rest) = expr_at(alloc, tokens)?;
    let (yes, rest) = block_at(alloc, rest)?;
    let (no, rest) = else_at(alloc, rest)?;
    Ok((Stmt::If { test, yes, no }, rest))
}

/// The block after the word `else` at the front, or none where the word does not stand there.
#[cycle(blocks)]
fn else_at(alloc: Global, tokens: &[Token]) -> Result<(Option<Block>, &[Token]), Halt<'_>>
    ensures read { IfOk result (λ f. Reads else_form tokens.now f.0 f.1.now) }
    ensures stop { IfErr result (λ h. Halts else_form tokens.now h) }
    ensures no_longer { IfOk result (λ f. length f.1.now ≤ length tokens.now) }
{
    let Some(next) = past_word(tokens, Keyword::Else) else {
        return Ok((None, tokens));
    };
    let (block, rest) = block_at(alloc, next)?;
    Ok((Some(block), rest))
}

/// The statement whose word `while` was taken.
#[cycle(blocks)]
fn while_at(alloc: Global, tokens: &[Token]) -> Result<(Stmt, &[Token]), Halt<'_>>
    ensures read { IfOk result (λ f. Reads stmt_form (Token.Word Keyword.While ∷ tokens.now) f.0 f.1.now) }
    ensures stop { IfErr result (λ h. Halts stmt_form (Token.Word Keyword.While ∷ tokens.now) h) }
    ensures shorter { IfOk result (λ f. length f.1.now < length tokens.now) }
{
    let (test, rest) = expr_at(alloc, tokens)?;
    let (body, rest) = block_at(alloc, rest)?;
    Ok((Stmt::While { test, body }, rest))
}

/// The statement whose word `try` was taken.
#[cycle(blocks)]
fn try_at(alloc: Global, tokens: &[Token]) -> Result<(Stmt, &[Token]), Halt<'_>>
    ensures read { IfOk result (λ f. Reads stmt_form (Token.Word Keyword.Try ∷ tokens.now) f.0 f.1.now) }
    ensures stop { IfErr result (λ h. Halts stmt_form (Token.Word Keyword.Try ∷ tokens.now) h) }
    ensures shorter { IfOk result (λ f. length f.1.now < length tokens.now) }
{
    let (body, rest) = block_at(alloc, tokens)?;
    let rest = after_word(rest, Keyword::Catch)?;
    let (name, rest) = name_at(rest)?;
    let (caught, rest) = block_at(alloc, rest)?;
    Ok((Stmt::Try { body, name, caught }, rest))
}
