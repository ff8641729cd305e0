ghost use Rattle.std.specs.Prelude.{◌≡◌, ◌<◌, ◌≤◌, ◌^◌, length, take, count_by, IfOk, IsUtf8};
ghost use Rattle.std.specs.List.{prefix_len};
ghost use Rattle.script_places.specs.Lines.{is_line_feed, is_within_line, last_line, first_line, readable, IsPositionOf};

use std::alloc::{AllocError, Global};

/// A place in a script as a person finds it.
#[derive(Debug, Drop)]
pub struct Position {
    /// The number of its line, from 1.
    pub line: usize,
    /// The number of its character in the line, from 1.
    pub column: usize,
    /// What stands in the line before the place.
    pub before: Vec<char>,
    /// What stands in the line from the place on; nothing where the script is no text from there on.
    pub after: Vec<char>,
}

/// The position of this byte in the script.
pub fn position_of(alloc: Global, bytes: &[u8], place: usize) -> Result<Position, AllocError>
    requires within { place ≤ length bytes.now }
    requires text { IsUtf8 (take place bytes.now) }
    ensures { IfOk result (λ position. IsPositionOf bytes.now place position) }
{
    let front = characters_of(alloc, &bytes[..place])?;
    let rest = characters_of(alloc, &bytes[place..])?;
    let before = last_line(front.as_slice());
    Ok(Position {
        line: line_feeds(front.as_slice()) + 1,
        column: before.len() + 1,
        before: Vec::from_slice(alloc, before)?,
        after: Vec::from_slice(alloc, first_line(rest.as_slice()))?,
    })
}

/// The characters of bytes; of bytes that are no text none.
fn characters_of(alloc: Global, bytes: &[u8]) -> Result<Vec<char>, AllocError>
    ensures { IfOk result (λ characters. characters.items ≡ readable bytes.now) }
{
    match str::from_utf8(bytes) {
        Ok(text) => text.chars().collect(alloc),
        Err(_) => Ok(Vec::new(alloc)),
    }
}

fn line_feeds(characters: &[char]) -> usize
    ensures count { result ≡ count_by is_line_feed characters.now }
    ensures few { result ≤ length characters.now }
{
    characters.iter().filter(|c| **c == '\n').count()
}

/// What stands after the last line feed.
fn last_line(characters: &[char]) -> &[char]
    ensures { result.now ≡ last_line characters.now }
{
    let mut start = characters.len();
    while start > 0 && characters[start - 1] != '\n' {
        start -= 1;
    }
    &characters[start..]
}

/// What stands before the first line feed.
fn first_line(characters: &[char]) -> &[char]
    ensures { result.now ≡ first_line characters.now }
{
    &characters[..first_length(characters)]
}

/// How many characters come before the first line feed.
fn first_length(characters: &[char]) -> usize
    ensures { result ≡ prefix_len is_within_line characters.now }
{
    characters.iter().take_while(|c| **c != '\n').count()
}
