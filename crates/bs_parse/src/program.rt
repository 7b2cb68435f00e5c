// A program's declarations and its body.
ghost use Rattle.std.specs.Prelude.{◌≡◌};
ghost use Rattle.bs_tree.specs.Grammar as rule;
ghost use Rattle.bs_parse.specs.Seen.{Follows};

use crate::cursor::{Cursor, Role, Stop};
use crate::statements::block;
use bs_tree::{EntryDecl, List, Mark, Stmt, VarDecl, Word};
use std::alloc::Global;

#[tactic(auto, unfolding(bs_tree::specs::Grammar::length_in_brackets, bs_tree::specs::Grammar::length_declared))]
fn length_declared(tokens: &mut Cursor<'_>) -> Result<Option<u64>, Stop>
    ensures { Follows rule.length_declared result tokens.old tokens.new }
{
    if !tokens.is_mark(Mark::BracketLeft) {
        return Ok(None);
    }
    let cells = length(tokens)?;
    Ok(Some(cells))
}

#[tactic(auto, unfolding(bs_tree::specs::Grammar::length_in_brackets))]
fn length(tokens: &mut Cursor<'_>) -> Result<u64, Stop>
    ensures { Follows rule.length_in_brackets result tokens.old tokens.new }
{
    tokens.mark(Role::Outside, Mark::BracketLeft)?;
    let inner = tokens.natural();
    tokens.close(Role::Outside, Mark::BracketRight, inner)
}

#[tactic(auto, unfolding(bs_tree::specs::Grammar::parameters_declared))]
fn parameters_declared(tokens: &mut Cursor<'_>) -> Result<u64, Stop>
    ensures { Follows rule.parameters_declared result tokens.old tokens.new }
{
    tokens.mark(Role::Outside, Mark::ParenLeft)?;
    let inner = tokens.natural();
    tokens.close(Role::Outside, Mark::ParenRight, inner)
}

#[tactic(auto, unfolding(bs_tree::specs::Grammar::variable_declaration))]
fn variable_declaration(tokens: &mut Cursor<'_>) -> Result<VarDecl, Stop>
    ensures { Follows rule.variable_declaration result tokens.old tokens.new }
{
    tokens.word(Role::Outside, Word::Var)?;
    var_ended(tokens)
}

#[tactic(auto, unfolding(bs_tree::specs::Grammar::var_ended))]
fn var_ended(tokens: &mut Cursor<'_>) -> Result<VarDecl, Stop>
    ensures { Follows rule.var_ended result tokens.old tokens.new }
{
    let declaration = after_var(tokens)?;
    tokens.mark(Role::Outside, Mark::Semicolon)?;
    Ok(declaration)
}

#[tactic(auto, unfolding(bs_tree::specs::Grammar::after_var))]
fn after_var(tokens: &mut Cursor<'_>) -> Result<VarDecl, Stop>
    ensures { Follows rule.after_var result tokens.old tokens.new }
{
    let name = tokens.name(Role::Outside)?;
    let cells = length_declared(tokens)?;
    Ok(VarDecl { name, cells })
}

#[tactic(auto, unfolding(bs_tree::specs::Grammar::entry_declaration))]
fn entry_declaration(tokens: &mut Cursor<'_>) -> Result<EntryDecl, Stop>
    ensures { Follows rule.entry_declaration result tokens.old tokens.new }
{
    tokens.word(Role::Outside, Word::Entry)?;
    entry_ended(tokens)
}

#[tactic(auto, unfolding(bs_tree::specs::Grammar::entry_ended))]
fn entry_ended(tokens: &mut Cursor<'_>) -> Result<EntryDecl, Stop>
    ensures { Follows rule.entry_ended result tokens.old tokens.new }
{
    let declaration = after_entry(tokens)?;
    tokens.mark(Role::Outside, Mark::Semicolon)?;
    Ok(declaration)
}

#[tactic(auto, unfolding(bs_tree::specs::Grammar::after_entry))]
fn after_entry(tokens: &mut Cursor<'_>) -> Result<EntryDecl, Stop>
    ensures { Follows rule.after_entry result tokens.old tokens.new }
{
    let name = tokens.name(Role::Outside)?;
    let params = parameters_declared(tokens)?;
    Ok(EntryDecl { name, params })
}

#[tactic(auto, unfolding(bs_tree::specs::Grammar::variable_declarations, bs_tree::specs::Grammar::variable_declaration))]
fn variable_declarations(alloc: Global, tokens: &mut Cursor<'_>) -> Result<List<VarDecl>, Stop>
    ensures { Follows rule.variable_declarations result tokens.old tokens.new }
{
    let mut list = List::new(alloc);
    for _turn in 0..tokens.left() {
        if !tokens.is_word(Word::Var) {
            return Ok(list);
        }
        match variable_declaration(tokens) {
            Ok(next) => list.push(next)?,
            Err(stop) => return Err(stop),
        }
    }
    Ok(list)
}

#[tactic(auto, unfolding(bs_tree::specs::Grammar::entry_declarations, bs_tree::specs::Grammar::entry_declaration))]
fn entry_declarations(alloc: Global, tokens: &mut Cursor<'_>) -> Result<List<EntryDecl>, Stop>
    ensures { Follows rule.entry_declarations result tokens.old tokens.new }
{
    let mut list = List::new(alloc);
    for _turn in 0..tokens.left() {
        if !tokens.is_word(Word::Entry) {
            return Ok(list);
        }
        match entry_declaration(tokens) {
            Ok(next) => list.push(next)?,
            Err(stop) => return Err(stop),
        }
    }
    Ok(list)
}

#[tactic(auto, unfolding(bs_tree::specs::Grammar::chares_declared))]
fn chares_declared(tokens: &mut Cursor<'_>) -> Result<u64, Stop>
    ensures { Follows rule.chares_declared result tokens.old tokens.new }
{
    tokens.word(Role::Outside, Word::Chares)?;
    let chares = tokens.natural()?;
    tokens.mark(Role::Outside, Mark::Semicolon)?;
    Ok(chares)
}

#[tactic(auto, unfolding(bs_tree::specs::Grammar::body))]
fn body(alloc: Global, tokens: &mut Cursor<'_>) -> Result<List<Stmt>, Stop>
    ensures { Follows rule.body result tokens.old tokens.new }
{
    tokens.word(Role::Outside, Word::Body)?;
    block(alloc, tokens)
}

/// The number of chares, the declarations and the body.
#[tactic(auto, unfolding(bs_tree::specs::Grammar::program))]
pub fn program(
    alloc: Global,
    tokens: &mut Cursor<'_>,
) -> Result<(u64, List<VarDecl>, List<EntryDecl>, List<Stmt>), Stop>
    ensures { Follows rule.program result tokens.old tokens.new }
{
    let chares = chares_declared(tokens)?;
    let vars = variable_declarations(alloc, tokens)?;
    let entries = entry_declarations(alloc, tokens)?;
    let body = body(alloc, tokens)?;
    Ok((chares, vars, entries, body))
}
