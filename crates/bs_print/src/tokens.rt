// Single tokens, each with a space behind it.
ghost use Rattle.std.specs.Prelude.{◌≡◌, ◌++◌, ◌∷◌, [], OnOk, slice_get, pos};
ghost use Rattle.bs_tree.specs.Symbol as s;
ghost use Rattle.bs_print.specs.Canonical.{bytes_of, spaced};

use bs_lex::{mark_text, word_text};
use bs_num::{decimal, signed};
use bs_tree::{Mark, Name, NameId, Word};
use std::alloc::AllocError;

#[tactic(auto, unfolding(crate::specs::Canonical::spaced))]
pub(crate) fn word(text: &mut Vec<u8>, word: Word) -> Result<(), AllocError>
    ensures { OnOk result (text.new.items ≡ text.old.items ++ spaced (s.word word)) }
{
    put(text, word_text(word).as_bytes())
}

#[tactic(auto, unfolding(crate::specs::Canonical::spaced))]
pub(crate) fn mark(text: &mut Vec<u8>, mark: Mark) -> Result<(), AllocError>
    ensures { OnOk result (text.new.items ≡ text.old.items ++ spaced (s.mark mark)) }
{
    put(text, mark_text(mark).as_bytes())
}

/// A name by its number, or no bytes where there is none.
#[tactic(auto, unfolding(crate::specs::Canonical::spaced))]
pub(crate) fn name(text: &mut Vec<u8>, names: &[Name], id: NameId) -> Result<(), AllocError>
    ensures { OnOk result (text.new.items ≡ text.old.items ++ spaced (s.name (bytes_of (slice_get names.now id.0)))) }
{
    match names.get(id.0 as usize) {
        Some(name) => put(text, name.0.as_slice()),
        None => put(text, &[]),
    }
}

#[tactic(auto, unfolding(crate::specs::Canonical::spaced))]
pub(crate) fn number(text: &mut Vec<u8>, n: i64) -> Result<(), AllocError>
    ensures { OnOk result (text.new.items ≡ text.old.items ++ spaced (s.number n)) }
{
    let mut room = [0; 40];
    let length = signed(n, &mut room);
    put(text, &room[..length])
}

#[tactic(auto, unfolding(crate::specs::Canonical::spaced))]
pub(crate) fn count(text: &mut Vec<u8>, n: u64) -> Result<(), AllocError>
    ensures { OnOk result (text.new.items ≡ text.old.items ++ spaced (s.number (pos n))) }
{
    let mut room = [0; 40];
    let length = decimal(n as u128, &mut room);
    put(text, &room[..length])
}

fn put(text: &mut Vec<u8>, token: &[u8]) -> Result<(), AllocError>
    ensures { OnOk result (text.new.items ≡ text.old.items ++ (token.now ++ 32 ∷ [])) }
{
    text.extend_from_slice(token)?;
    text.push(b' ')?;
    Ok(())
}
