// A whole program, up to the end of its tokens.
ghost use Rattle.std.specs.Prelude.{◌≡◌, ◌⊎◌, IfOk, Ok, Err, map};
ghost use Rattle.bs_tree.specs.Grammar.{Parts};
ghost use Rattle.bs_tree.specs.Fault.{IsProgram};
ghost use Rattle.bs_parse.specs.Seen.{terminal};
ghost use Rattle.bs_parse.specs.Whole.{Faults};
ghost use Rattle.bs_parse.specs.declared.whole.WholeFault.TheVariants.{Memory};

use crate::cursor::{Cursor, Lexeme, Reason, Stop};
use crate::program::program;
use bs_tree::{EntryDecl, List, Stmt, VarDecl};
use std::alloc::Global;

/// Why some tokens are no program: the place of the first token with a fault, counted from 0, and
/// what is wrong with it. The place of the end is the number of the tokens.
#[derive(Clone, Copy, Debug, PartialEq, Eq, Drop)]
pub enum WholeFault {
    Memory,
    At(usize, Reason),
}

/// The number of chares, the declarations and the body of the program that the tokens spell.
pub fn whole(
    alloc: Global,
    tokens: &[Lexeme],
) -> Result<(u64, List<VarDecl>, List<EntryDecl>, List<Stmt>), WholeFault>
    ensures found { IfOk result (λ parts. IsProgram (map terminal tokens.now) parts) }
    ensures only { (parts : Parts) → IsProgram (map terminal tokens.now) parts → (result ≡ Ok parts) ⊎ (result ≡ Err Memory) }
    ensures fault { Faults (map terminal tokens.now) result }
{
    let mut cursor = Cursor::new(tokens);
    match program(alloc, &mut cursor) {
        Ok(parts) => match cursor.peek() {
            None => Ok(parts),
            Some(_) => Err(WholeFault::At(tokens.len() - cursor.left(), Reason::Unexpected)),
        },
        Err(Stop::Memory) => Err(WholeFault::Memory),
        Err(Stop::At(reason)) => Err(WholeFault::At(tokens.len() - cursor.left(), reason)),
    }
}
