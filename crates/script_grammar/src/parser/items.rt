//! Items: shared names, functions and tasks.

ghost use Rattle.std.specs.Prelude.{◌≡◌, ◌∷◌, ◌<◌, ◌^◌, ℕ, List, length, IfOk, IfErr, OnOk};
ghost use Rattle.script_grammar.specs.Forms.{Reads};
ghost use Rattle.script_grammar.specs.Halts.{Halts};
ghost use Rattle.script_grammar.specs.StatementForms.{more_names_form, params_form, declaration_form, with_declaration};

use crate::halt::Halt;
use crate::parser::blocks::block_at;
use crate::parser::tokens::{after, name_at, past};
use crate::tree::{Function, Item, Script, Task};
use dyn_value::DynText;
use script_tokens::{Keyword, Symbol, Token};
use sqlite_items::Items;
use std::alloc::{AllocError, Global};

/// What an item declares.
#[derive(Drop)]
pub enum Declaration {
    Shared(DynText),
    Fun(Function),
    Task(Task),
}

/// The item at the front.
#[tactic(auto, using(crate::proofs::ItemRules::no_declaration))]
pub fn declaration_at(alloc: Global, tokens: &[Token]) -> Result<(Declaration, &[Token]), Halt<'_>>
    ensures read { IfOk result (λ f. Reads declaration_form tokens.now f.0 f.1.now) }
    ensures stop { IfErr result (λ h. Halts declaration_form tokens.now h) }
    ensures shorter { IfOk result (λ f. length f.1.now < length tokens.now) }
{
    match tokens {
        [Token::Word(Keyword::Shared), rest @ ..] => shared_at(rest),
        [Token::Word(Keyword::Fn), rest @ ..] => function_at(alloc, rest),
        [Token::Word(Keyword::Task), rest @ ..] => task_at(alloc, rest),
        _ => Err(Halt::Stop(tokens)),
    }
}

/// The item whose word `shared` was taken.
fn shared_at(tokens: &[Token]) -> Result<(Declaration, &[Token]), Halt<'_>>
    ensures read { IfOk result (λ f. Reads declaration_form (Token.Word Keyword.Shared ∷ tokens.now) f.0 f.1.now) }
    ensures stop { IfErr result (λ h. Halts declaration_form (Token.Word Keyword.Shared ∷ tokens.now) h) }
    ensures shorter { IfOk result (λ f. length f.1.now < length tokens.now) }
{
    let (name, rest) = name_at(tokens)?;
    let rest = after(rest, Symbol::Semicolon)?;
    Ok((Declaration::Shared(name), rest))
}

/// The names after the first one, which is given, up to the parenthesis that closes them.
fn more_names_at(
    alloc: Global,
    first: DynText,
    tokens: &[Token],
) -> Result<(Items<DynText>, &[Token]), Halt<'_>>
    ensures read { IfOk result (λ f. (ns : List (List ℕ))
        × ((f.0 ≡ first ∷ ns) × Reads more_names_form tokens.now ns f.1.now)) }
    ensures stop { IfErr result (λ h. Halts more_names_form tokens.now h) }
    ensures shorter { IfOk result (λ f. length f.1.now < length tokens.now) }
{
    let mut names = Items::new(alloc);
    names.push(first)?;
    let mut rest = tokens;
    'row: loop {
        if let Some(rest) = past(rest, Symbol::CloseParenthesis) {
            return Ok((names, rest));
        }
        let next = after(rest, Symbol::Comma)?;
        let (name, more) = name_at(next)?;
        names.push(name)?;
        rest = more;
    }
}

/// The names between parentheses at the front.
fn params_at(alloc: Global, tokens: &[Token]) -> Result<(Items<DynText>, &[Token]), Halt<'_>>
    ensures read { IfOk result (λ f. Reads params_form tokens.now f.0 f.1.now) }
    ensures stop { IfErr result (λ h. Halts params_form tokens.now h) }
    ensures shorter { IfOk result (λ f. length f.1.now < length tokens.now) }
{
    let rest = after(tokens, Symbol::OpenParenthesis)?;
    if let Some(rest) = past(rest, Symbol::CloseParenthesis) {
        return Ok((Items::new(alloc), rest));
    }
    let (first, rest) = name_at(rest)?;
    let (names, rest) = more_names_at(alloc, first, rest)?;
    Ok((names, rest))
}

/// The item whose word `fn` was taken.
fn function_at(alloc: Global, tokens: &[Token]) -> Result<(Declaration, &[Token]), Halt<'_>>
    ensures read { IfOk result (λ f. Reads declaration_form (Token.Word Keyword.Fn ∷ tokens.now) f.0 f.1.now) }
    ensures stop { IfErr result (λ h. Halts declaration_form (Token.Word Keyword.Fn ∷ tokens.now) h) }
    ensures shorter { IfOk result (λ f. length f.1.now < length tokens.now) }
{
    let (name, rest) = name_at(tokens)?;
    let (params, rest) = params_at(alloc, rest)?;
    let (body, rest) = block_at(alloc, rest)?;
    Ok((Declaration::Fun(Function { name, params, body }), rest))
}

/// The item whose word `task` was taken.
fn task_at(alloc: Global, tokens: &[Token]) -> Result<(Declaration, &[Token]), Halt<'_>>
    ensures read { IfOk result (λ f. Reads declaration_form (Token.Word Keyword.Task ∷ tokens.now) f.0 f.1.now) }
    ensures stop { IfErr result (λ h. Halts declaration_form (Token.Word Keyword.Task ∷ tokens.now) h) }
    ensures shorter { IfOk result (λ f. length f.1.now < length tokens.now) }
{
    let (name, rest) = name_at(tokens)?;
    let (body, rest) = block_at(alloc, rest)?;
    Ok((Declaration::Task(Task { name, body }), rest))
}

/// Adds an item to a script. Where memory is refused, a part of it may have been added.
pub fn add(script: &mut Script, declaration: Declaration) -> Result<(), AllocError>
    requires few_shared { length script.old.shared < 2 ^ 32 }
    requires few_functions { length script.old.functions < 2 ^ 32 }
    requires few_tasks { length script.old.tasks < 2 ^ 32 }
    ensures { OnOk result (script.new ≡ with_declaration script.old declaration) }
{
    match declaration {
        Declaration::Shared(name) => {
            script.items.push(Item::Shared(script.shared.len() as u32))?;
            script.shared.push(name)
        }
        Declaration::Fun(function) => {
            script.items.push(Item::Fun(script.functions.len() as u32))?;
            script.functions.push(function)
        }
        Declaration::Task(task) => {
            script.items.push(Item::Task(script.tasks.len() as u32))?;
            script.tasks.push(task)
        }
    }
}
