//! The grammar of scripts: their trees, and the tokens that spell them.
#![tactic(auto)]

mod halt;
mod laws;
mod parser;
mod tree;

pub use laws::{
    scripts_have_no_syntax_place, tokens_have_one_syntax_place, trees_have_distinct_spellings,
};
pub use parser::{ParseFault, parse};
pub use tree::{Arg, Block, Expr, Function, Head, Item, Script, Stmt, Suffix, Task};
