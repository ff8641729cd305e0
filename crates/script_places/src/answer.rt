ghost use Rattle.std.specs.Prelude.{◌^◌, ◌<◌, length, map, string_bytes, IfOk, MatchOption};
ghost use Rattle.script_places.specs.Answers.{Explains, PointsNowhere};

use crate::places::place_of_refusal;
use crate::position::position_of;
use crate::refusal::read_refusal;
use crate::shown::shown_position;
use std::alloc::{AllocError, Global};

/// What is shown of the place at which the refusal with these words points in the script; `None` where the words are
/// those of no refusal that names a place of it.
pub fn explain(alloc: Global, words: &[String], bytes: &[u8]) -> Result<Option<String>, AllocError>
    requires { length bytes.now < 2 ^ 32 }
    ensures { IfOk result (λ o. MatchOption o
        (PointsNowhere (map string_bytes words.now) bytes.now)
        (λ text. Explains (map string_bytes words.now) bytes.now (string_bytes text))) }
{
    let Some(refusal) = read_refusal(words) else {
        return Ok(None);
    };
    match place_of_refusal(alloc, bytes, refusal)? {
        Some(place) => {
            let position = position_of(alloc, bytes, place as usize)?;
            Ok(Some(shown_position(alloc, &position)?))
        }
        None => Ok(None),
    }
}
