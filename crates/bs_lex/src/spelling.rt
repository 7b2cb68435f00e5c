// How names, numbers, reserved words and marks are written.
ghost use Rattle.std.specs.Prelude.{◌≡◌};
ghost use Rattle.bs_lex.specs.Spelling.{is_blank as blank, is_letter as letter, is_name_byte as name_byte, word_text as text_of_word, word_named as named, mark_text as text_of_mark, mark_at as longest};

use bs_tree::{Mark, Word};

/// The text of a reserved word.
pub fn word_text(word: Word) -> &'static str
    ensures { result.now ≡ text_of_word word }
{
    match word {
        Word::Chares => "chares",
        Word::Var => "var",
        Word::Entry => "entry",
        Word::Body => "body",
        Word::Serial => "serial",
        Word::When => "when",
        Word::Overlap => "overlap",
        Word::For => "for",
        Word::While => "while",
        Word::If => "if",
        Word::Else => "else",
        Word::Send => "send",
        Word::To => "to",
        Word::Bytes => "bytes",
        Word::Work => "work",
        Word::Emit => "emit",
        Word::Repeat => "repeat",
        Word::This => "this",
    }
}

// The reserved word with this text, if it is one.
pub(crate) fn word_named(name: &[u8]) -> Option<Word>
    ensures { result ≡ named name.now }
{
    match name {
        b"chares" => Some(Word::Chares),
        b"var" => Some(Word::Var),
        b"entry" => Some(Word::Entry),
        b"body" => Some(Word::Body),
        b"serial" => Some(Word::Serial),
        b"when" => Some(Word::When),
        b"overlap" => Some(Word::Overlap),
        b"for" => Some(Word::For),
        b"while" => Some(Word::While),
        b"if" => Some(Word::If),
        b"else" => Some(Word::Else),
        b"send" => Some(Word::Send),
        b"to" => Some(Word::To),
        b"bytes" => Some(Word::Bytes),
        b"work" => Some(Word::Work),
        b"emit" => Some(Word::Emit),
        b"repeat" => Some(Word::Repeat),
        b"this" => Some(Word::This),
        _ => None,
    }
}

/// The text of a mark.
pub fn mark_text(mark: Mark) -> &'static str
    ensures { result.now ≡ text_of_mark mark }
{
    match mark {
        Mark::BraceLeft => "{",
        Mark::BraceRight => "}",
        Mark::ParenLeft => "(",
        Mark::ParenRight => ")",
        Mark::BracketLeft => "[",
        Mark::BracketRight => "]",
        Mark::Semicolon => ";",
        Mark::Comma => ",",
        Mark::Assign => "=",
        Mark::Equal => "==",
        Mark::NotEqual => "!=",
        Mark::Less => "<",
        Mark::LessEqual => "<=",
        Mark::Greater => ">",
        Mark::GreaterEqual => ">=",
        Mark::Plus => "+",
        Mark::Minus => "-",
        Mark::Star => "*",
        Mark::Slash => "/",
        Mark::Percent => "%",
        Mark::Not => "!",
        Mark::And => "&&",
        Mark::Or => "||",
    }
}

// The longest mark that the bytes begin with.
pub(crate) fn mark_at(bytes: &[u8]) -> Option<Mark>
    ensures { result ≡ longest bytes.now }
{
    let mark = match bytes {
        [b'=', b'=', ..] => Mark::Equal,
        [b'!', b'=', ..] => Mark::NotEqual,
        [b'<', b'=', ..] => Mark::LessEqual,
        [b'>', b'=', ..] => Mark::GreaterEqual,
        [b'&', b'&', ..] => Mark::And,
        [b'|', b'|', ..] => Mark::Or,
        [b'{', ..] => Mark::BraceLeft,
        [b'}', ..] => Mark::BraceRight,
        [b'(', ..] => Mark::ParenLeft,
        [b')', ..] => Mark::ParenRight,
        [b'[', ..] => Mark::BracketLeft,
        [b']', ..] => Mark::BracketRight,
        [b';', ..] => Mark::Semicolon,
        [b',', ..] => Mark::Comma,
        [b'=', ..] => Mark::Assign,
        [b'<', ..] => Mark::Less,
        [b'>', ..] => Mark::Greater,
        [b'+', ..] => Mark::Plus,
        [b'-', ..] => Mark::Minus,
        [b'*', ..] => Mark::Star,
        [b'/', ..] => Mark::Slash,
        [b'%', ..] => Mark::Percent,
        [b'!', ..] => Mark::Not,
        _ => return None,
    };
    Some(mark)
}

// Space, tab, LF or CR.
pub(crate) fn is_blank(byte: u8) -> bool
    ensures { result ≡ blank byte }
{
    byte == b' ' || byte == b'\t' || byte == b'\n' || byte == b'\r'
}

// What a name begins with.
pub(crate) fn is_letter(byte: u8) -> bool
    ensures { result ≡ letter byte }
{
    byte.is_ascii_alphabetic() || byte == b'_'
}

// What a name goes on with.
pub(crate) fn is_name_byte(byte: u8) -> bool
    ensures { result ≡ name_byte byte }
{
    is_letter(byte) || byte.is_ascii_digit()
}
