ghost use Rattle.std.specs.Prelude.{◌≡◌, map, encode_utf8_all, string_bytes, IfOk};
ghost use Rattle.std.specs.Fmt.{decimal};
ghost use Rattle.script_places.specs.Shown.{seen, under, cut_before, cut_after, heading_of, lines_of, shown_text};

use crate::position::Position;
use std::alloc::{AllocError, Global};

/// How many characters are shown at most on each side of the place.
const MOST_SHOWN: usize = 60;

/// What is shown of a position: its line and column, the line's text, and a mark under the place, in three lines. Of a
/// long line the characters next to the place are shown, with three dots in place of the others.
pub fn shown_position(alloc: Global, position: &Position) -> Result<String, AllocError>
    ensures { IfOk result (λ text. string_bytes text ≡ shown_text position.now) }
{
    let front = cut_before(alloc, position.before.as_slice())?;
    let rest = cut_after(alloc, position.after.as_slice())?;
    let before = seen_text(alloc, front.as_slice())?;
    let after = seen_text(alloc, rest.as_slice())?;
    let blanks = text_under(alloc, front.as_slice())?;
    three_lines(
        alloc,
        position,
        before.as_str(),
        after.as_str(),
        blanks.as_str(),
    )
}

/// The line and the column, the line's text in two parts, and the mark after these blanks.
fn three_lines(
    alloc: Global,
    position: &Position,
    before: &str,
    after: &str,
    blanks: &str,
) -> Result<String, AllocError>
    ensures { IfOk result (λ text. string_bytes text ≡
        lines_of position.now.line position.now.column before.now after.now blanks.now) }
{
    let mut text = heading(alloc, position.line, position.column)?;
    text.push_str(before)?;
    text.push_str(after)?;
    text.push_str("\n  ")?;
    text.push_str(blanks)?;
    text.push_str("^\n")?;
    Ok(text)
}

/// The first line, and what stands before the line's text.
fn heading(alloc: Global, line: usize, column: usize) -> Result<String, AllocError>
    ensures { IfOk result (λ text. string_bytes text ≡ heading_of line column) }
{
    let line_text = number_text(alloc, line)?;
    let column_text = number_text(alloc, column)?;
    let mut text = String::from_str(alloc, "line ")?;
    text.push_str(line_text.as_str())?;
    text.push_str(", column ")?;
    text.push_str(column_text.as_str())?;
    text.push_str("\n  ")?;
    Ok(text)
}

fn number_text(alloc: Global, number: usize) -> Result<String, AllocError>
    ensures { IfOk result (λ text. string_bytes text ≡ decimal number) }
{
    format!(in alloc; "{number}")
}

/// The last characters, with dots in place of those before them.
fn cut_before(alloc: Global, characters: &[char]) -> Result<Vec<char>, AllocError>
    ensures { IfOk result (λ cut. cut.items ≡ cut_before characters.now) }
{
    if characters.len() <= MOST_SHOWN {
        return Vec::from_slice(alloc, characters);
    }
    let mut cut = vec![in alloc; '.', '.', '.']?;
    cut.extend_from_slice(&characters[characters.len() - MOST_SHOWN..])?;
    Ok(cut)
}

/// The first characters, with dots in place of those after them.
fn cut_after(alloc: Global, characters: &[char]) -> Result<Vec<char>, AllocError>
    ensures { IfOk result (λ cut. cut.items ≡ cut_after characters.now) }
{
    if characters.len() <= MOST_SHOWN {
        return Vec::from_slice(alloc, characters);
    }
    let mut cut = Vec::from_slice(alloc, &characters[..MOST_SHOWN])?;
    cut.extend_from_slice(&['.', '.', '.'])?;
    Ok(cut)
}

/// The characters as they are shown.
fn seen_text(alloc: Global, characters: &[char]) -> Result<String, AllocError>
    ensures { IfOk result (λ text. string_bytes text ≡ encode_utf8_all (map seen characters.now)) }
{
    characters.iter().map(|c| seen(*c)).collect(alloc)
}

/// What stands under the characters.
fn text_under(alloc: Global, characters: &[char]) -> Result<String, AllocError>
    ensures { IfOk result (λ text. string_bytes text ≡ encode_utf8_all (map under characters.now)) }
{
    characters.iter().map(|c| under(*c)).collect(alloc)
}

/// A character as it is shown: a control character as a blank, but a tab as itself.
fn seen(c: char) -> char
    ensures { result ≡ seen c }
{
    match c {
        '\t' => c,
        '\0'..='\u{1f}' | '\u{7f}'..='\u{9f}' => ' ',
        _ => c,
    }
}

/// What stands in the line of the mark under a character.
fn under(c: char) -> char
    ensures { result ≡ under c }
{
    if c == '\t' { '\t' } else { ' ' }
}
