// Statements, and what stands in brackets in them.
ghost use Rattle.std.specs.Prelude.{◌≡◌};
ghost use Rattle.bs_tree.specs.Grammar as rule;
ghost use Rattle.bs_tree.specs.Rule.{statements as statements_inside, names as names_inside, loop_head as head_inside};
ghost use Rattle.bs_parse.specs.Reading.{starts, begins};
ghost use Rattle.bs_parse.specs.Seen.{Follows};

use crate::acts::{act_list, ended, one};
use crate::cursor::{Cursor, Lexeme, Role, Stop};
use crate::expressions::{expression, group, index};
use bs_tree::{Expr, List, Mark, NameId, Stmt, Wait, Word};
use std::alloc::Global;

impl Cursor<'_> {
    #[tactic(auto, unfolding(bs_tree::specs::Grammar::statement, bs_tree::specs::Grammar::sequence))]
    fn begins_statement(&self) -> bool
        ensures { result ≡ starts (begins rule.statement) self.now.rest }
    {
        match self.peek() {
            Some(Lexeme::Word(word)) => matches!(
                word,
                Word::Serial | Word::When | Word::Overlap | Word::For | Word::While | Word::If
            ),
            Some(Lexeme::Mark(mark)) => matches!(mark, Mark::BraceLeft),
            _ => false,
        }
    }
}

// Names with commas between them, or none.
fn names(alloc: Global, tokens: &mut Cursor<'_>) -> Result<List<NameId>, Stop>
    ensures { Follows (rule.content names_inside) result tokens.old tokens.new }
{
    if !tokens.is_name() {
        return Ok(List::new(alloc));
    }
    some_names(alloc, tokens)
}

fn some_names(alloc: Global, tokens: &mut Cursor<'_>) -> Result<List<NameId>, Stop>
    ensures { Follows (rule.with_commas rule.name) result tokens.old tokens.new }
{
    let first = tokens.name(Role::Outside)?;
    let mut list = one(alloc, first)?;
    for _turn in 0..tokens.left() {
        if !tokens.is_mark(Mark::Comma) {
            return Ok(list);
        }
        let next = next_name(tokens)?;
        list.push(next)?;
    }
    Ok(list)
}

fn next_name(tokens: &mut Cursor<'_>) -> Result<NameId, Stop>
    ensures { Follows (rule.after_comma rule.name) result tokens.old tokens.new }
{
    tokens.mark(Role::Outside, Mark::Comma)?;
    tokens.name(Role::Outside)
}

#[tactic(auto, unfolding(bs_tree::specs::Grammar::parameters))]
fn parameters(alloc: Global, tokens: &mut Cursor<'_>) -> Result<List<NameId>, Stop>
    ensures { Follows rule.parameters result tokens.old tokens.new }
{
    tokens.mark(Role::Outside, Mark::ParenLeft)?;
    let inner = names(alloc, tokens);
    tokens.close(Role::Outside, Mark::ParenRight, inner)
}

// The reference number and the parameters of a wait.
#[tactic(auto, unfolding(bs_tree::specs::Grammar::awaited))]
fn awaited(alloc: Global, tokens: &mut Cursor<'_>) -> Result<(Expr, List<NameId>), Stop>
    ensures { Follows rule.awaited result tokens.old tokens.new }
{
    let reference = index(alloc, tokens, Role::Outside)?;
    let params = parameters(alloc, tokens)?;
    Ok((reference, params))
}

#[tactic(auto, unfolding(bs_tree::specs::Grammar::wait))]
fn wait(alloc: Global, tokens: &mut Cursor<'_>) -> Result<Wait, Stop>
    ensures { Follows rule.wait result tokens.old tokens.new }
{
    let entry = tokens.name(Role::Outside)?;
    let (reference, params) = awaited(alloc, tokens)?;
    Ok(Wait {
        entry,
        reference,
        params,
    })
}

fn next_wait(alloc: Global, tokens: &mut Cursor<'_>) -> Result<Wait, Stop>
    ensures { Follows (rule.after_comma rule.wait) result tokens.old tokens.new }
{
    tokens.mark(Role::Outside, Mark::Comma)?;
    wait(alloc, tokens)
}

#[tactic(auto, unfolding(bs_tree::specs::Grammar::waits))]
fn waits(alloc: Global, tokens: &mut Cursor<'_>) -> Result<List<Wait>, Stop>
    ensures { Follows rule.waits result tokens.old tokens.new }
{
    let first = wait(alloc, tokens)?;
    let mut list = one(alloc, first)?;
    for _turn in 0..tokens.left() {
        if !tokens.is_mark(Mark::Comma) {
            return Ok(list);
        }
        let next = next_wait(alloc, tokens)?;
        list.push(next)?;
    }
    Ok(list)
}

// A variable, and what it is set to.
#[tactic(auto, unfolding(bs_tree::specs::Grammar::setting))]
fn setting(alloc: Global, tokens: &mut Cursor<'_>) -> Result<(NameId, Expr), Stop>
    ensures { Follows rule.setting result tokens.old tokens.new }
{
    let name = tokens.name(Role::Outside)?;
    let value = first_value(alloc, tokens)?;
    Ok((name, value))
}

#[tactic(auto, unfolding(bs_tree::specs::Grammar::set_to))]
fn first_value(alloc: Global, tokens: &mut Cursor<'_>) -> Result<Expr, Stop>
    ensures { Follows rule.set_to result tokens.old tokens.new }
{
    tokens.mark(Role::Outside, Mark::Assign)?;
    expression(alloc, tokens)
}

fn loop_head(
    alloc: Global,
    tokens: &mut Cursor<'_>,
) -> Result<(NameId, Expr, Expr, NameId, Expr), Stop>
    ensures { Follows (rule.content head_inside) result tokens.old tokens.new }
{
    let (start, first) = setting(alloc, tokens)?;
    tokens.mark(Role::Outside, Mark::Semicolon)?;
    let test = ended(alloc, tokens)?;
    let (step, next) = setting(alloc, tokens)?;
    Ok((start, first, test, step, next))
}

#[tactic(auto, unfolding(bs_tree::specs::Grammar::head))]
fn head(alloc: Global, tokens: &mut Cursor<'_>) -> Result<(NameId, Expr, Expr, NameId, Expr), Stop>
    ensures { Follows rule.head result tokens.old tokens.new }
{
    tokens.mark(Role::Outside, Mark::ParenLeft)?;
    let inner = loop_head(alloc, tokens);
    tokens.close(Role::Outside, Mark::ParenRight, inner)
}

#[cycle(statements)]
#[tactic(auto, unfolding(bs_tree::specs::Grammar::after_when))]
fn after_when(alloc: Global, tokens: &mut Cursor<'_>) -> Result<Stmt, Stop>
    ensures { Follows rule.after_when result tokens.old tokens.new }
{
    let waited = waits(alloc, tokens)?;
    let body = block(alloc, tokens)?;
    Ok(Stmt::When(waited, body))
}

#[cycle(statements)]
#[tactic(auto, unfolding(bs_tree::specs::Grammar::after_for))]
fn after_for(alloc: Global, tokens: &mut Cursor<'_>) -> Result<Stmt, Stop>
    ensures { Follows rule.after_for result tokens.old tokens.new }
{
    let (start, first, test, step, next) = head(alloc, tokens)?;
    let body = block(alloc, tokens)?;
    Ok(Stmt::For(start, first, test, step, next, body))
}

#[cycle(statements)]
#[tactic(auto, unfolding(bs_tree::specs::Grammar::after_while))]
fn after_while(alloc: Global, tokens: &mut Cursor<'_>) -> Result<Stmt, Stop>
    ensures { Follows rule.after_while result tokens.old tokens.new }
{
    let test = group(alloc, tokens, Role::Outside)?;
    let body = block(alloc, tokens)?;
    Ok(Stmt::While(test, body))
}

#[cycle(statements)]
#[tactic(auto, unfolding(bs_tree::specs::Grammar::block_else))]
fn block_else(alloc: Global, tokens: &mut Cursor<'_>) -> Result<Option<List<Stmt>>, Stop>
    ensures { Follows rule.block_else result tokens.old tokens.new }
{
    if !tokens.is_word(Word::Else) {
        return Ok(None);
    }
    tokens.word(Role::Outside, Word::Else)?;
    let other = block(alloc, tokens)?;
    Ok(Some(other))
}

#[cycle(statements)]
#[tactic(auto, unfolding(bs_tree::specs::Grammar::after_if))]
fn after_if(alloc: Global, tokens: &mut Cursor<'_>) -> Result<Stmt, Stop>
    ensures { Follows rule.after_if result tokens.old tokens.new }
{
    let test = group(alloc, tokens, Role::Outside)?;
    let first = block(alloc, tokens)?;
    let other = block_else(alloc, tokens)?;
    Ok(Stmt::If(test, first, other))
}

#[cycle(statements)]
#[tactic(auto, unfolding(bs_tree::specs::Grammar::statement))]
fn statement(alloc: Global, tokens: &mut Cursor<'_>) -> Result<Stmt, Stop>
    ensures { Follows rule.statement result tokens.old tokens.new }
{
    if tokens.is_word(Word::Serial) {
        tokens.word(Role::Opening, Word::Serial)?;
        let acts = act_list(alloc, tokens)?;
        Ok(Stmt::Serial(acts))
    } else if tokens.is_word(Word::When) {
        tokens.word(Role::Opening, Word::When)?;
        after_when(alloc, tokens)
    } else if tokens.is_word(Word::Overlap) {
        tokens.word(Role::Opening, Word::Overlap)?;
        let parts = block(alloc, tokens)?;
        Ok(Stmt::Overlap(parts))
    } else if tokens.is_word(Word::For) {
        tokens.word(Role::Opening, Word::For)?;
        after_for(alloc, tokens)
    } else if tokens.is_word(Word::While) {
        tokens.word(Role::Opening, Word::While)?;
        after_while(alloc, tokens)
    } else if tokens.is_word(Word::If) {
        tokens.word(Role::Opening, Word::If)?;
        after_if(alloc, tokens)
    } else {
        sequence(alloc, tokens)
    }
}

// A block that is a statement.
#[cycle(statements)]
#[tactic(auto, unfolding(bs_tree::specs::Grammar::sequence))]
fn sequence(alloc: Global, tokens: &mut Cursor<'_>) -> Result<Stmt, Stop>
    ensures { Follows rule.sequence result tokens.old tokens.new }
{
    tokens.mark(Role::Opening, Mark::BraceLeft)?;
    let inner = statements(alloc, tokens);
    match tokens.close(Role::Outside, Mark::BraceRight, inner) {
        Ok(body) => Ok(Stmt::Seq(body)),
        Err(stop) => Err(stop),
    }
}

#[cycle(statements)]
fn statements(alloc: Global, tokens: &mut Cursor<'_>) -> Result<List<Stmt>, Stop>
    ensures { Follows (rule.content statements_inside) result tokens.old tokens.new }
{
    let mut list = List::new(alloc);
    for _turn in 0..tokens.left() {
        if !tokens.begins_statement() {
            return Ok(list);
        }
        match statement(alloc, tokens) {
            Ok(next) => list.push(next)?,
            Err(stop) => return Err(stop),
        }
    }
    Ok(list)
}

/// Statements in braces.
#[cycle(statements)]
#[tactic(auto, unfolding(bs_tree::specs::Grammar::block))]
pub fn block(alloc: Global, tokens: &mut Cursor<'_>) -> Result<List<Stmt>, Stop>
    ensures { Follows rule.block result tokens.old tokens.new }
{
    tokens.mark(Role::Outside, Mark::BraceLeft)?;
    let inner = statements(alloc, tokens);
    tokens.close(Role::Outside, Mark::BraceRight, inner)
}
