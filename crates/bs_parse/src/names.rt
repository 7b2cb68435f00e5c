// The names of a text, numbered by their first appearance.
ghost use Rattle.std.specs.Prelude.{◌≡◌, IfOk, [], None, option_map, option_copied, map};
ghost use Rattle.std.specs.List.{All};
ghost use Rattle.bs_lex.specs.Symbols.{symbol_as, symbols};
ghost use Rattle.bs_tree.specs.Symbol.{name as a_name};
ghost use Rattle.bs_parse.specs.Seen.{terminal};
ghost use Rattle.bs_parse.specs.Text.{names_of, terminals_of, as_name};
ghost use Rattle.bs_parse.specs.Naming.{IsTied, IsWithin, Takes, place_among, texts};

use crate::cursor::Lexeme;
use bs_lex::{Token, TokenKind};
use bs_tree::{List, Name, NameId};
use std::alloc::{AllocError, Global};
use std::collections::BTreeMap;

/// The names that are known, in the order of their first appearance, and the place of each by its
/// bytes.
#[derive(Drop)]
pub struct Names<'a> {
    places: BTreeMap<&'a [u8], u32>,
    known: List<Name>,
}

impl<'a> Names<'a> {
    fn new(alloc: Global) -> Names<'a>
        ensures known { result.known ≡ [] }
        ensures tied { IsTied result }
    {
        Names {
            places: BTreeMap::new(alloc),
            known: List::new(alloc),
        }
    }

    fn place(&self, name: &'a [u8]) -> Option<u32>
        requires { IsTied self.now }
        ensures { result ≡ place_among (texts self.now.known) name.now }
    {
        self.places.get(&name).copied()
    }

    // The number of a name, which is known from then on. More than 2^32 names can't be numbered.
    fn number(&mut self, alloc: Global, name: &'a [u8]) -> Result<NameId, AllocError>
        requires { IsTied self.old }
        ensures { IfOk result (λ id. Takes (Some (a_name name.now)) (Some (Lexeme.Name id)) self.old self.new) }
    {
        if let Some(place) = self.place(name) {
            return Ok(NameId(place));
        }
        let Ok(place) = u32::try_from(self.known.as_slice().len()) else {
            return Err(AllocError);
        };
        let copy = name.to_vec(alloc)?;
        self.known.push(Name(List::from_vec(copy)))?;
        self.places.insert(name, place)?;
        Ok(NameId(place))
    }

    // The lexeme of a token with these bytes; the end is none.
    fn lexeme(
        &mut self,
        alloc: Global,
        kind: TokenKind,
        bytes: &'a [u8],
    ) -> Result<Option<Lexeme>, AllocError>
        requires { IsTied self.old }
        ensures { IfOk result (λ lexeme. Takes (symbol_as kind bytes.now) lexeme self.old self.new) }
    {
        match kind {
            TokenKind::Name => {
                let id = self.number(alloc, bytes)?;
                Ok(Some(Lexeme::Name(id)))
            }
            TokenKind::Number(number) => Ok(Some(Lexeme::Number(number))),
            TokenKind::Word(word) => Ok(Some(Lexeme::Word(word))),
            TokenKind::Mark(mark) => Ok(Some(Lexeme::Mark(mark))),
            TokenKind::End => Ok(None),
        }
    }
}

/// The lexemes of the tokens of a text, and its names in the order of their first appearance.
pub fn lexemes(
    alloc: Global,
    text: &[u8],
    tokens: &[Token],
) -> Result<(List<Lexeme>, List<Name>), AllocError>
    requires { All (IsWithin text.now) tokens.now }
    ensures { IfOk result (λ read.
        (map terminal read.0 ≡ terminals_of (symbols text.now tokens.now))
        × (read.1 ≡ map as_name (names_of (symbols text.now tokens.now)))) }
{
    let mut names = Names::new(alloc);
    let mut lexemes = List::new(alloc);
    for token in tokens {
        let bytes = &text[token.from as usize..token.to as usize];
        if let Some(lexeme) = names.lexeme(alloc, token.kind, bytes)? {
            lexemes.push(lexeme)?;
        }
    }
    let Names { known, .. } = names;
    Ok((lexemes, known))
}
