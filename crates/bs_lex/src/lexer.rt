// From a text to its tokens.
ghost use Rattle.std.specs.Prelude.{◌≡◌, ◌≢◌, IfOk, IfErr, Ok, Err, ◌+◌, ◌^◌, ◌<◌, length, All};
ghost use Rattle.bs_lex.specs.Symbols.{StandsFrom, IsSpelled};
ghost use Rattle.bs_lex.specs.Lexed.{lexed, tokens_from, token_at as token_of};
ghost use Rattle.bs_lex.specs.declared.token.LexFault.TheVariants.{Memory};

use crate::piece::{Piece, first_piece};
use crate::token::{LexFault, Token, TokenKind};
use bs_tree::List;
use std::alloc::{AllocError, Global};

impl From<AllocError> for LexFault {
    ghost from_gives = { λ _ given. given ≡ Memory };

    fn from(_error: AllocError) -> LexFault {
        LexFault::Memory
    }
}

/// The tokens of a text, and `End` behind them at the length of the text.
///
/// The first fault is the answer. `NotUtf8` comes before every other, exactly where the text isn't
/// UTF-8, with the length of the longest prefix that is. `BadNumber` and `BadCharacter` come exactly
/// at the first place, from left to right, where neither a blank nor a comment nor a token stands.
pub fn tokens(alloc: Global, text: &[u8]) -> Result<List<Token>, LexFault>
    ensures ok { IfOk result (λ tokens. lexed text.now ≡ Ok tokens) }
    ensures err { IfErr result (λ fault. fault ≢ Memory → lexed text.now ≡ Err fault) }

    // Where the tokens stand, and that their bytes spell them.
    ensures stand { IfOk result (λ tokens. StandsFrom 0 (length text.now) tokens) }
    ensures spelled { IfOk result (λ tokens. All (IsSpelled text.now) tokens) }
{
    if let Err(fault) = str::from_utf8(text) {
        return Err(LexFault::NotUtf8(fault.valid_up_to() as u64));
    }
    tokens_of_utf8(alloc, text)
}

fn tokens_of_utf8(alloc: Global, text: &[u8]) -> Result<List<Token>, LexFault>
    ensures ok { IfOk result (λ tokens. tokens_from 0 0 text.now ≡ Ok tokens) }
    ensures err { IfErr result (λ fault. fault ≢ Memory → tokens_from 0 0 text.now ≡ Err fault) }
    ensures stand { IfOk result (λ tokens. StandsFrom 0 (length text.now) tokens) }
    ensures spelled { IfOk result (λ tokens. All (IsSpelled text.now) tokens) }
{
    let mut tokens = List::new(alloc);
    let mut at = 0;
    while at < text.len() {
        match first_piece(&text[at..]) {
            Piece::Gap(length) => at += length,
            Piece::Token(kind, length) => {
                tokens.push(token_at(kind, at, length))?;
                at += length;
            }
            Piece::BadNumber => return Err(LexFault::BadNumber(at as u64)),
            Piece::BadCharacter => return Err(LexFault::BadCharacter(at as u64)),
        }
    }
    tokens.push(token_at(TokenKind::End, at, 0))?;
    Ok(tokens)
}

fn token_at(kind: TokenKind, at: usize, length: usize) -> Token
    requires { at + length < 2 ^ 64 }
    ensures { result ≡ token_of kind at length }
{
    Token {
        kind,
        from: at as u64,
        to: (at + length) as u64,
    }
}
