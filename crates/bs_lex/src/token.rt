// What a token is, and what can be wrong with a text.
use bs_tree::{Mark, Word};

/// A token with the bytes of the text that it stands at: from `from`, counted from 0, up to the
/// byte before `to`.
#[derive(Clone, Copy, Debug, PartialEq, Eq, Drop)]
pub struct Token {
    pub kind: TokenKind,
    pub from: u64,
    pub to: u64,
}

/// The kind of a token. `End` is the last one, and stands at the length of the text.
#[derive(Clone, Copy, Debug, PartialEq, Eq, Drop)]
pub enum TokenKind {
    Name,
    Number(i64),
    Word(Word),
    Mark(Mark),
    End,
}

/// Why a text has no tokens. A place is a byte of the text, counted from 0.
#[derive(Clone, Copy, Debug, PartialEq, Eq, Drop)]
pub enum LexFault {
    /// The text isn't UTF-8: the place is the length of the longest prefix that is.
    NotUtf8(u64),
    /// No token begins with this character, whose first byte is the place.
    BadCharacter(u64),
    /// A number with a needless leading 0 or above 2^63 - 1, whose first digit is the place.
    BadNumber(u64),
    Memory,
}
