ghost use Rattle.std.specs.Prelude.{◌≡◌, true};
ghost use Rattle.std.specs.Char.{is_ascii_digit};
ghost use Rattle.std.specs.List.{list_all};
ghost use Rattle.std.specs.Prelude.{IsTrue};
ghost use Rattle.command_words.specs.Commands.{number_of};

/// The number that one to ten decimal digits write; `None` where the text is anything else.
pub(crate) fn number_in(text: &str) -> Option<u64>
    ensures { result ≡ number_of text.now }
{
    let length = text.len();
    if length == 0 || length > 10 || !are_digits(text.as_bytes()) {
        return None;
    }
    text.parse().ok()
}

fn are_digits(bytes: &[u8]) -> bool
    ensures { result ≡ list_all is_ascii_digit bytes.now }
{
    bytes.iter().all(|byte| byte.is_ascii_digit())
}
