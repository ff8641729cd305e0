ghost use Rattle.script_grammar.specs.declared.halt.Halt.TheVariants as halt;

use script_tokens::Token;
use std::alloc::AllocError;

/// Why the reading of tokens ended without a tree.
#[derive(Drop)]
pub enum Halt<'a> {
    /// The first of these tokens cannot be taken, or further ones are missing where there is none.
    Stop(&'a [Token]),
    /// Memory was refused.
    Memory,
}

impl<'a> From<AllocError> for Halt<'a> {
    ghost use Rattle.std.specs.Prelude.{◌≡◌};
    ghost use Rattle.script_grammar.specs.declared.halt.Halt.TheVariants as halt;

    ghost from_gives = { λ _ e. e ≡ halt.Memory };

    fn from(_error: AllocError) -> Halt<'a> {
        Halt::Memory
    }
}
