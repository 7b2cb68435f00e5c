// The canonical text of a program.
ghost use Rattle.std.specs.Prelude.{◌≡◌, ◌++◌, List, OnOk, IfOk};
ghost use Rattle.bs_tree.specs.declared.tree.Name.{Name as TreeName};
ghost use Rattle.bs_print.specs.Canonical.{spaced_items, text_of};
ghost use Rattle.bs_print.specs.Statements.{chares_items, length_items, variable_items, entry_items, variables_items, entries_items, front_items};

use crate::statements::statements;
use crate::tokens::{count, mark, name, word};
use bs_tree::{EntryDecl, Mark, Name, Program, VarDecl, Word};
use std::alloc::{AllocError, Global};

/// The canonical text of a program: its symbols with one space between two of them and LF at the end, and with no
/// parentheses but those that its tree needs. A name whose number is none of the program's has no bytes.
pub fn print(alloc: Global, program: &Program) -> Result<Vec<u8>, AllocError>
    ensures { IfOk result (λ text. text.items ≡ text_of program.now) }
{
    let mut text = Vec::new(alloc);
    front(&mut text, program)?;
    text.extend_from_slice(b"}\n")?;
    Ok(text)
}

// All but the last brace.
#[tactic(auto, using(crate::proofs::Pieces::spaced_append), unfolding(crate::specs::Statements::front_items))]
fn front(text: &mut Vec<u8>, program: &Program) -> Result<(), AllocError>
    ensures { OnOk result (text.new.items ≡ text.old.items ++ spaced_items program.now.names (front_items (program.now.chares, program.now.vars, program.now.entries, program.now.body))) }
{
    let names = program.names.as_slice();
    chares(text, program.chares)?;
    variables(text, names, program.vars.as_slice())?;
    entries(text, names, program.entries.as_slice())?;
    word(text, Word::Body)?;
    mark(text, Mark::BraceLeft)?;
    statements(text, names, program.body.as_slice())
}

#[tactic(auto, unfolding(crate::specs::Statements::chares_items))]
fn chares(text: &mut Vec<u8>, chares: u64) -> Result<(), AllocError>
    ensures { (names : List TreeName) → OnOk result (text.new.items ≡ text.old.items ++ spaced_items names (chares_items chares)) }
{
    word(text, Word::Chares)?;
    count(text, chares)?;
    mark(text, Mark::Semicolon)
}

#[tactic(auto, using(crate::proofs::Pieces::spaced_append), unfolding(crate::specs::Statements::variables_items))]
fn variables(text: &mut Vec<u8>, names: &[Name], vars: &[VarDecl]) -> Result<(), AllocError>
    ensures { OnOk result (text.new.items ≡ text.old.items ++ spaced_items names.now (variables_items vars.now)) }
{
    for var in vars {
        variable(text, names, *var)?;
    }
    Ok(())
}

#[tactic(auto, using(crate::proofs::Pieces::spaced_append), unfolding(crate::specs::Statements::variable_items))]
fn variable(text: &mut Vec<u8>, names: &[Name], var: VarDecl) -> Result<(), AllocError>
    ensures { OnOk result (text.new.items ≡ text.old.items ++ spaced_items names.now (variable_items var)) }
{
    word(text, Word::Var)?;
    name(text, names, var.name)?;
    length(text, var.cells)?;
    mark(text, Mark::Semicolon)
}

// The number of cells in brackets, where there is one.
fn length(text: &mut Vec<u8>, cells: Option<u64>) -> Result<(), AllocError>
    ensures { (names : List TreeName) → OnOk result (text.new.items ≡ text.old.items ++ spaced_items names (length_items cells)) }
{
    match cells {
        Some(cells) => {
            mark(text, Mark::BracketLeft)?;
            count(text, cells)?;
            mark(text, Mark::BracketRight)
        }
        None => Ok(()),
    }
}

#[tactic(auto, using(crate::proofs::Pieces::spaced_append), unfolding(crate::specs::Statements::entries_items))]
fn entries(text: &mut Vec<u8>, names: &[Name], entries: &[EntryDecl]) -> Result<(), AllocError>
    ensures { OnOk result (text.new.items ≡ text.old.items ++ spaced_items names.now (entries_items entries.now)) }
{
    for next in entries {
        entry(text, names, *next)?;
    }
    Ok(())
}

#[tactic(auto, using(crate::proofs::Pieces::spaced_append), unfolding(crate::specs::Statements::entry_items))]
fn entry(text: &mut Vec<u8>, names: &[Name], entry: EntryDecl) -> Result<(), AllocError>
    ensures { OnOk result (text.new.items ≡ text.old.items ++ spaced_items names.now (entry_items entry)) }
{
    word(text, Word::Entry)?;
    name(text, names, entry.name)?;
    mark(text, Mark::ParenLeft)?;
    count(text, entry.params)?;
    mark(text, Mark::ParenRight)?;
    mark(text, Mark::Semicolon)
}
