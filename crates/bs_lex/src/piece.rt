// What stands at the front of a text.
ghost use Rattle.std.specs.Prelude.{◌≡◌, ◌-◌, ◌^◌, ◌==◌, not, nat_eq, length, take_while, codes};
ghost use Rattle.std.specs.List.{starts_with};
ghost use Rattle.bs_num.specs.Decimal.{is_digit as digit, number_in};
ghost use Rattle.bs_lex.specs.Spelling.{is_name_byte as name_byte, mark_at as longest};
ghost use Rattle.bs_lex.specs.Lexed.{piece_of, name_piece as piece_of_name, number_piece as piece_of_number, mark_piece as piece_of_mark};

use crate::spelling::{is_blank, is_letter, is_name_byte, mark_at, mark_text, word_named};
use crate::token::TokenKind;
use bs_num::read_decimal;

/// The front of a text, as long as possible.
#[derive(Clone, Copy, Drop)]
pub(crate) enum Piece {
    /// So many bytes that belong to no token: a blank, or a comment.
    Gap(usize),
    /// A token of so many bytes.
    Token(TokenKind, usize),
    BadNumber,
    BadCharacter,
}

// The greatest number that a text may hold.
const GREATEST: u64 = 9_223_372_036_854_775_807;

// What the bytes begin with. No bytes begin with nothing that a text may hold.
pub(crate) fn first_piece(bytes: &[u8]) -> Piece
    ensures { result ≡ piece_of bytes.now }
{
    match bytes {
        [] => Piece::BadCharacter,
        [first, ..] if is_blank(*first) => Piece::Gap(1),
        [b'/', b'/', ..] => Piece::Gap(comment_length(bytes)),
        [first, ..] if is_letter(*first) => name_piece(bytes),
        [first, ..] if first.is_ascii_digit() => number_piece(bytes),
        _ => mark_piece(bytes),
    }
}

// A comment ends before the next LF, or at the end of the text.
fn comment_length(bytes: &[u8]) -> usize
    ensures { result ≡ length (take_while (λ byte. not (byte == 10)) bytes.now) }
{
    bytes.iter().take_while(|byte| **byte != b'\n').count()
}

fn name_length(bytes: &[u8]) -> usize
    ensures { result ≡ length (take_while name_byte bytes.now) }
{
    bytes.iter().take_while(|byte| is_name_byte(**byte)).count()
}

fn digits_length(bytes: &[u8]) -> usize
    ensures { result ≡ length (take_while digit bytes.now) }
{
    bytes
        .iter()
        .take_while(|byte| byte.is_ascii_digit())
        .count()
}

fn name_piece(bytes: &[u8]) -> Piece
    ensures { result ≡ piece_of_name (take_while name_byte bytes.now) }
{
    let length = name_length(bytes);
    match word_named(&bytes[..length]) {
        Some(word) => Piece::Token(TokenKind::Word(word), length),
        None => Piece::Token(TokenKind::Name, length),
    }
}

fn number_piece(bytes: &[u8]) -> Piece
    ensures { result ≡ piece_of_number (number_in (2 ^ 63 - 1) (take_while digit bytes.now)) (length (take_while digit bytes.now)) }
{
    let length = digits_length(bytes);
    match read_decimal(&bytes[..length], GREATEST) {
        Ok(number) => Piece::Token(TokenKind::Number(number as i64), length),
        Err(_) => Piece::BadNumber,
    }
}

fn mark_piece(bytes: &[u8]) -> Piece
    ensures { result ≡ piece_of_mark (longest bytes.now) }
{
    match mark_at(bytes) {
        Some(mark) => Piece::Token(TokenKind::Mark(mark), mark_text(mark).len()),
        None => Piece::BadCharacter,
    }
}
