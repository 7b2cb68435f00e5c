// Acts, and what stands in brackets in them.
ghost use Rattle.std.specs.Prelude.{◌≡◌, ◌∷◌, [], IfOk};
ghost use Rattle.bs_tree.specs.Grammar as rule;
ghost use Rattle.bs_tree.specs.Rule.{acts as acts_inside, expressions as expressions_inside};
ghost use Rattle.bs_parse.specs.Reading.{starts, begins};
ghost use Rattle.bs_parse.specs.Seen.{Follows, begins_operand};

use crate::cursor::{Cursor, Lexeme, Role, Stop};
use crate::expressions::{expression, group, index};
use bs_tree::{Act, Expr, List, Mark, NameId, Word};
use std::alloc::{AllocError, Global};

/// An expression and the semicolon after it.
#[tactic(auto, unfolding(bs_tree::specs::Grammar::ended))]
pub fn ended(alloc: Global, tokens: &mut Cursor<'_>) -> Result<Expr, Stop>
    ensures { Follows rule.ended result tokens.old tokens.new }
{
    let value = expression(alloc, tokens)?;
    tokens.mark(Role::Outside, Mark::Semicolon)?;
    Ok(value)
}

impl Cursor<'_> {
    fn begins_expression(&self) -> bool
        ensures { result ≡ starts (begins (rule.with_commas rule.disjunction)) self.now.rest }
    {
        self.has_operand()
    }

    fn has_operand(&self) -> bool
        ensures { result ≡ starts begins_operand self.now.rest }
    {
        match self.peek() {
            Some(Lexeme::Number(_)) => true,
            Some(Lexeme::Name(_)) => true,
            Some(Lexeme::Word(word)) => matches!(word, Word::This | Word::Chares),
            Some(Lexeme::Mark(mark)) => matches!(mark, Mark::Minus | Mark::Not | Mark::ParenLeft),
            None => false,
        }
    }

    #[tactic(auto, unfolding(bs_tree::specs::Grammar::act))]
    fn begins_act(&self) -> bool
        ensures { result ≡ starts (begins rule.act) self.now.rest }
    {
        match self.peek() {
            Some(Lexeme::Name(_)) => true,
            Some(Lexeme::Word(word)) => {
                matches!(
                    word,
                    Word::Send | Word::Work | Word::Emit | Word::If | Word::Repeat
                )
            }
            _ => false,
        }
    }
}

/// A list of one item.
pub fn one<T: Drop>(alloc: Global, item: T) -> Result<List<T>, AllocError>
    ensures { IfOk result (λ list. list ≡ item ∷ []) }
{
    let mut list = List::new(alloc);
    list.push(item)?;
    Ok(list)
}

// Expressions with commas between them, or none.
fn expressions(alloc: Global, tokens: &mut Cursor<'_>) -> Result<List<Expr>, Stop>
    ensures { Follows (rule.content expressions_inside) result tokens.old tokens.new }
{
    if !tokens.begins_expression() {
        return Ok(List::new(alloc));
    }
    some_expressions(alloc, tokens)
}

fn some_expressions(alloc: Global, tokens: &mut Cursor<'_>) -> Result<List<Expr>, Stop>
    ensures { Follows (rule.with_commas rule.disjunction) result tokens.old tokens.new }
{
    let first = expression(alloc, tokens)?;
    let mut list = one(alloc, first)?;
    for _turn in 0..tokens.left() {
        if !tokens.is_mark(Mark::Comma) {
            return Ok(list);
        }
        let next = next_expression(alloc, tokens)?;
        list.push(next)?;
    }
    Ok(list)
}

fn next_expression(alloc: Global, tokens: &mut Cursor<'_>) -> Result<Expr, Stop>
    ensures { Follows (rule.after_comma rule.disjunction) result tokens.old tokens.new }
{
    tokens.mark(Role::Outside, Mark::Comma)?;
    expression(alloc, tokens)
}

#[tactic(auto, unfolding(bs_tree::specs::Grammar::arguments))]
fn arguments(alloc: Global, tokens: &mut Cursor<'_>) -> Result<List<Expr>, Stop>
    ensures { Follows rule.arguments result tokens.old tokens.new }
{
    tokens.mark(Role::Outside, Mark::ParenLeft)?;
    let inner = expressions(alloc, tokens);
    tokens.close(Role::Outside, Mark::ParenRight, inner)
}

// The index of a cell, or none.
#[tactic(auto, unfolding(bs_tree::specs::Grammar::cell_index, bs_tree::specs::Grammar::index))]
fn cell_index(alloc: Global, tokens: &mut Cursor<'_>) -> Result<Option<Expr>, Stop>
    ensures { Follows rule.cell_index result tokens.old tokens.new }
{
    if !tokens.is_mark(Mark::BracketLeft) {
        return Ok(None);
    }
    let at = index(alloc, tokens, Role::Outside)?;
    Ok(Some(at))
}

#[tactic(auto, unfolding(bs_tree::specs::Grammar::assigned_value))]
fn assigned_value(alloc: Global, tokens: &mut Cursor<'_>) -> Result<Expr, Stop>
    ensures { Follows rule.assigned_value result tokens.old tokens.new }
{
    tokens.mark(Role::Outside, Mark::Assign)?;
    ended(alloc, tokens)
}

// What is assigned after a name: the index of a cell where there is one, and the value.
#[tactic(auto, unfolding(bs_tree::specs::Grammar::after_name))]
fn after_name(alloc: Global, tokens: &mut Cursor<'_>) -> Result<(Option<Expr>, Expr), Stop>
    ensures { Follows rule.after_name result tokens.old tokens.new }
{
    let at = cell_index(alloc, tokens)?;
    let value = assigned_value(alloc, tokens)?;
    Ok((at, value))
}

fn assignment(alloc: Global, tokens: &mut Cursor<'_>) -> Result<Act, Stop>
    ensures { Follows rule.assignment result tokens.old tokens.new }
{
    let name = tokens.name(Role::Outside)?;
    let (at, value) = after_name(alloc, tokens)?;
    match at {
        None => Ok(Act::Set(name, value)),
        Some(at) => Ok(Act::SetAt(name, at, value)),
    }
}

// The reference number and the arguments of a send.
#[tactic(auto, unfolding(bs_tree::specs::Grammar::addressed))]
fn addressed(alloc: Global, tokens: &mut Cursor<'_>) -> Result<(Expr, List<Expr>), Stop>
    ensures { Follows rule.addressed result tokens.old tokens.new }
{
    let reference = index(alloc, tokens, Role::Outside)?;
    let arguments = arguments(alloc, tokens)?;
    Ok((reference, arguments))
}

// The entry, the reference number and the arguments of a send.
#[tactic(auto, unfolding(bs_tree::specs::Grammar::message))]
fn message(alloc: Global, tokens: &mut Cursor<'_>) -> Result<(NameId, Expr, List<Expr>), Stop>
    ensures { Follows rule.message result tokens.old tokens.new }
{
    let entry = tokens.name(Role::Outside)?;
    let (reference, arguments) = addressed(alloc, tokens)?;
    Ok((entry, reference, arguments))
}

#[tactic(auto, unfolding(bs_tree::specs::Grammar::bytes))]
fn bytes(alloc: Global, tokens: &mut Cursor<'_>) -> Result<Option<Expr>, Stop>
    ensures { Follows rule.bytes result tokens.old tokens.new }
{
    if !tokens.is_word(Word::Bytes) {
        return Ok(None);
    }
    tokens.word(Role::Outside, Word::Bytes)?;
    let bytes = expression(alloc, tokens)?;
    Ok(Some(bytes))
}

// The target of a send, and the number of bytes where one is given.
#[tactic(auto, unfolding(bs_tree::specs::Grammar::target))]
fn target(alloc: Global, tokens: &mut Cursor<'_>) -> Result<(Expr, Option<Expr>), Stop>
    ensures { Follows rule.target result tokens.old tokens.new }
{
    tokens.word(Role::Outside, Word::To)?;
    let target = expression(alloc, tokens)?;
    let bytes = bytes(alloc, tokens)?;
    Ok((target, bytes))
}

#[tactic(auto, unfolding(bs_tree::specs::Grammar::after_send))]
fn after_send(alloc: Global, tokens: &mut Cursor<'_>) -> Result<Act, Stop>
    ensures { Follows rule.after_send result tokens.old tokens.new }
{
    let (entry, reference, arguments) = message(alloc, tokens)?;
    let (target, bytes) = target(alloc, tokens)?;
    tokens.mark(Role::Outside, Mark::Semicolon)?;
    Ok(Act::Send(entry, reference, arguments, target, bytes))
}

#[cycle(acts)]
#[tactic(auto, unfolding(bs_tree::specs::Grammar::act_else))]
fn act_else(alloc: Global, tokens: &mut Cursor<'_>) -> Result<Option<List<Act>>, Stop>
    ensures { Follows rule.act_else result tokens.old tokens.new }
{
    if !tokens.is_word(Word::Else) {
        return Ok(None);
    }
    tokens.word(Role::Outside, Word::Else)?;
    let other = act_list(alloc, tokens)?;
    Ok(Some(other))
}

#[cycle(acts)]
#[tactic(auto, unfolding(bs_tree::specs::Grammar::after_act_if))]
fn after_if(alloc: Global, tokens: &mut Cursor<'_>) -> Result<Act, Stop>
    ensures { Follows rule.after_act_if result tokens.old tokens.new }
{
    let test = group(alloc, tokens, Role::Outside)?;
    let first = act_list(alloc, tokens)?;
    let other = act_else(alloc, tokens)?;
    Ok(Act::If(test, first, other))
}

#[cycle(acts)]
#[tactic(auto, unfolding(bs_tree::specs::Grammar::after_repeat))]
fn after_repeat(alloc: Global, tokens: &mut Cursor<'_>) -> Result<Act, Stop>
    ensures { Follows rule.after_repeat result tokens.old tokens.new }
{
    let times = expression(alloc, tokens)?;
    let body = act_list(alloc, tokens)?;
    Ok(Act::Repeat(times, body))
}

#[cycle(acts)]
#[tactic(auto, unfolding(bs_tree::specs::Grammar::act))]
fn act(alloc: Global, tokens: &mut Cursor<'_>) -> Result<Act, Stop>
    ensures { Follows rule.act result tokens.old tokens.new }
{
    if tokens.is_name() {
        assignment(alloc, tokens)
    } else if tokens.is_word(Word::Send) {
        tokens.word(Role::Outside, Word::Send)?;
        after_send(alloc, tokens)
    } else if tokens.is_word(Word::Work) {
        tokens.word(Role::Outside, Word::Work)?;
        let amount = ended(alloc, tokens)?;
        Ok(Act::Work(amount))
    } else if tokens.is_word(Word::Emit) {
        tokens.word(Role::Outside, Word::Emit)?;
        let value = ended(alloc, tokens)?;
        Ok(Act::Emit(value))
    } else if tokens.is_word(Word::If) {
        tokens.word(Role::Outside, Word::If)?;
        after_if(alloc, tokens)
    } else {
        tokens.word(Role::Outside, Word::Repeat)?;
        after_repeat(alloc, tokens)
    }
}

#[cycle(acts)]
fn acts(alloc: Global, tokens: &mut Cursor<'_>) -> Result<List<Act>, Stop>
    ensures { Follows (rule.content acts_inside) result tokens.old tokens.new }
{
    let mut list = List::new(alloc);
    for _turn in 0..tokens.left() {
        if !tokens.begins_act() {
            return Ok(list);
        }
        match act(alloc, tokens) {
            Ok(next) => list.push(next)?,
            Err(stop) => return Err(stop),
        }
    }
    Ok(list)
}

/// Acts in braces.
#[cycle(acts)]
#[tactic(auto, unfolding(bs_tree::specs::Grammar::act_list))]
pub fn act_list(alloc: Global, tokens: &mut Cursor<'_>) -> Result<List<Act>, Stop>
    ensures { Follows rule.act_list result tokens.old tokens.new }
{
    tokens.mark(Role::Outside, Mark::BraceLeft)?;
    let inner = acts(alloc, tokens);
    tokens.close(Role::Outside, Mark::BraceRight, inner)
}
