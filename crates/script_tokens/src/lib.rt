//! The tokens of the script language: from bytes to tokens with their places, or the first cause why there are none.
#![tactic(auto)]

mod laws;
mod lexer;
mod shallow;
mod token;

pub use laws::{
    bytes_have_one_list_of_tokens, bytes_have_one_refusal, characters_have_one_list_of_tokens,
    tokens_are_not_refused,
};
pub use lexer::{LexFault, LexRefused, PlacedTokens, lex, placed_tokens};
pub use shallow::MOST_OPEN_BRACKETS;
pub use token::{Keyword, Symbol, Token};
