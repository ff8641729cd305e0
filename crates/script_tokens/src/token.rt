use dyn_value::DynText;

/// The words that are no names.
#[derive(Clone, Copy, Debug, PartialEq, Eq)]
pub enum Keyword {
    Shared,
    Fn,
    Task,
    Let,
    Delete,
    If,
    Else,
    While,
    Return,
    Print,
    Try,
    Catch,
    New,
    Nil,
    True,
    False,
    Int,
    Text,
    Bool,
}

/// The signs of one or two characters.
#[derive(Clone, Copy, Debug, PartialEq, Eq)]
pub enum Symbol {
    OpenParenthesis,
    CloseParenthesis,
    OpenBrace,
    CloseBrace,
    OpenBracket,
    CloseBracket,
    Comma,
    Semicolon,
    Dot,
    Colon,
    Equal,
    EqualEqual,
    BangEqual,
    Less,
    LessEqual,
    Greater,
    GreaterEqual,
    Plus,
    Minus,
    Star,
    Slash,
    Percent,
    Ampersand,
    Bar,
    Bang,
}

/// What a script is made of, between its blanks and comments.
#[derive(Debug, Drop)]
pub enum Token {
    /// An identifier that is no keyword.
    Name(DynText),
    /// A number that is not negative.
    Int(i64),
    /// What a text between quotation marks means.
    Text(DynText),
    Word(Keyword),
    Mark(Symbol),
}
