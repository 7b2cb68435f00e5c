// The program of a text.
ghost use Rattle.std.specs.Prelude.{◌≡◌, ◌≢◌, ◌⊎◌, IfErr, IfOk, Ok, Err};
ghost use Rattle.bs_tree.specs.declared.tree.Program.{Program as Tree};
ghost use Rattle.bs_parse.specs.Seen.{reason_of};
ghost use Rattle.bs_parse.specs.Text.{IsFault, Spells, fault_at as fault_of, refused_lexer};
ghost use Rattle.bs_parse.specs.declared.text.ParseFault.TheVariants.{Memory};

use crate::cursor::Reason;
use crate::names::lexemes;
use crate::whole::{WholeFault, whole};
use bs_lex::{LexFault, Token, TokenKind, tokens};
use bs_tree::Program;
use std::alloc::{AllocError, Global};

/// Why a text spells no program. A place is a byte of the text, counted from 0: the first byte of the first token with a
/// fault, or the length of the text where its end is at fault.
#[derive(Clone, Copy, Debug, PartialEq, Eq, Drop)]
pub enum ParseFault {
    /// The text has no tokens. It never holds `LexFault::Memory`.
    Lex(LexFault),
    /// The token, whose kind is told, can't go on any program.
    Unexpected(u64, TokenKind),
    /// An opening bracket would be the 65th that is open, or an operator of two operands the 65th of an expression that
    /// stands in no other.
    TooDeep(u64),
    /// The token begins the 10,001st statement.
    TooManyStatements(u64),
    Memory,
}

impl From<AllocError> for ParseFault {
    ghost from_gives = { λ _ given. given ≡ Memory };

    fn from(_error: AllocError) -> ParseFault {
        ParseFault::Memory
    }
}

impl From<LexFault> for ParseFault {
    ghost from_gives = { λ fault given. given ≡ refused_lexer fault };

    fn from(fault: LexFault) -> ParseFault {
        match fault {
            LexFault::Memory => ParseFault::Memory,
            fault => ParseFault::Lex(fault),
        }
    }
}

/// The program that a text spells. `docs/program-text.md` says which texts spell one, and what is
/// the first fault of one that doesn't.
pub fn parse(alloc: Global, text: &[u8]) -> Result<Program, ParseFault>
    ensures ok { IfOk result (λ program. Spells text.now program) }
    ensures only { (program : Tree) → Spells text.now program → (result ≡ Ok program) ⊎ (result ≡ Err Memory) }
    ensures err { IfErr result (λ fault. fault ≢ Memory → IsFault text.now fault) }
{
    let tokens = tokens(alloc, text)?;
    let (lexemes, names) = lexemes(alloc, text, tokens.as_slice())?;
    match whole(alloc, lexemes.as_slice()) {
        Ok((chares, vars, entries, body)) => Ok(Program {
            chares,
            names,
            vars,
            entries,
            body,
        }),
        Err(WholeFault::Memory) => Err(ParseFault::Memory),
        Err(WholeFault::At(place, reason)) => Err(fault_at(tokens.as_slice()[place], reason)),
    }
}

fn fault_at(token: Token, reason: Reason) -> ParseFault
    ensures { result ≡ fault_of (reason_of reason) token }
{
    match reason {
        Reason::Unexpected => ParseFault::Unexpected(token.from, token.kind),
        Reason::TooDeep => ParseFault::TooDeep(token.from),
        Reason::TooMany => ParseFault::TooManyStatements(token.from),
    }
}
