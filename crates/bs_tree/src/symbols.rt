// The reserved words and the marks of the language.

/// A reserved word.
#[derive(Clone, Copy, Debug, PartialEq, Eq, Drop)]
pub enum Word {
    Chares,
    Var,
    Entry,
    Body,
    Serial,
    When,
    Overlap,
    For,
    While,
    If,
    Else,
    Send,
    To,
    Bytes,
    Work,
    Emit,
    Repeat,
    This,
}

/// A mark of one or two characters.
#[derive(Clone, Copy, Debug, PartialEq, Eq, Drop)]
pub enum Mark {
    BraceLeft,
    BraceRight,
    ParenLeft,
    ParenRight,
    BracketLeft,
    BracketRight,
    Semicolon,
    Comma,
    Assign,
    Equal,
    NotEqual,
    Less,
    LessEqual,
    Greater,
    GreaterEqual,
    Plus,
    Minus,
    Star,
    Slash,
    Percent,
    Not,
    And,
    Or,
}
