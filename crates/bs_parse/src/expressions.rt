// Expressions, from loose to tight.
ghost use Rattle.std.specs.Prelude.{◌≡◌, IfOk};
ghost use Rattle.bs_tree.specs.Rule.{closing};
ghost use Rattle.bs_tree.specs.Grammar as rule;
ghost use Rattle.bs_tree.specs.declared.tree.Expr.TheVariants as e;
ghost use Rattle.bs_parse.specs.Reading.{starts, begins};
ghost use Rattle.bs_parse.specs.Seen.{role_of, operators_of, operand_of, Follows};

use crate::cursor::{Cursor, Level, Role, Stop};
use bs_tree::{Boxed, Expr, Mark, Op2, Word};
use std::alloc::{AllocError, Global};

impl From<AllocError> for Stop {
    ghost use Rattle.std.specs.Prelude.{◌≡◌};
    ghost use Rattle.bs_parse.specs.declared.cursor.Stop.TheVariants.{Memory};

    ghost from_gives = { λ _ stop. stop ≡ Memory };

    fn from(_: AllocError) -> Self {
        Stop::Memory
    }
}

fn two(alloc: Global, op: Op2, left: Expr, right: Expr) -> Result<Expr, AllocError>
    ensures { IfOk result (λ x. x ≡ e.Two op left right) }
{
    Ok(Expr::Two(op, Boxed::new(alloc, left)?, Boxed::new(alloc, right)?))
}

#[cycle(expression)]
#[tactic(auto, unfolding(bs_tree::specs::Grammar::disjunction))]
pub fn expression(alloc: Global, tokens: &mut Cursor<'_>) -> Result<Expr, Stop>
    ensures { Follows rule.disjunction result tokens.old tokens.new }
{
    chain(alloc, tokens, Level::Or)
}

// Operands of a level with its operators between them, grouped to the left.
#[cycle(expression)]
fn chain(alloc: Global, tokens: &mut Cursor<'_>, level: Level) -> Result<Expr, Stop>
    ensures { Follows (rule.chain (operators_of level) (operand_of level)) result tokens.old tokens.new }
{
    let mut left = operand(alloc, tokens, level)?;
    for _turn in 0..tokens.left() {
        if !tokens.is_operator(level) {
            return Ok(left);
        }
        let (op, right) = tail(alloc, tokens, level)?;
        left = two(alloc, op, left, right)?;
    }
    Ok(left)
}

#[cycle(expression)]
fn tail(alloc: Global, tokens: &mut Cursor<'_>, level: Level) -> Result<(Op2, Expr), Stop>
    ensures { Follows (rule.tail (operators_of level) (operand_of level)) result tokens.old tokens.new }
{
    let op = tokens.operator(level)?;
    let right = operand(alloc, tokens, level)?;
    Ok((op, right))
}

#[cycle(expression)]
#[tactic(auto, unfolding(bs_tree::specs::Grammar::conjunction, bs_tree::specs::Grammar::sum, bs_tree::specs::Grammar::product))]
fn operand(alloc: Global, tokens: &mut Cursor<'_>, level: Level) -> Result<Expr, Stop>
    ensures { Follows (operand_of level) result tokens.old tokens.new }
{
    match level {
        Level::Or => chain(alloc, tokens, Level::And),
        Level::And => comparison(alloc, tokens),
        Level::Comparison => chain(alloc, tokens, Level::Sum),
        Level::Sum => chain(alloc, tokens, Level::Product),
        Level::Product => unary(alloc, tokens),
    }
}

#[cycle(expression)]
#[tactic(auto, unfolding(bs_tree::specs::Grammar::comparison))]
fn comparison(alloc: Global, tokens: &mut Cursor<'_>) -> Result<Expr, Stop>
    ensures { Follows rule.comparison result tokens.old tokens.new }
{
    let left = operand(alloc, tokens, Level::Comparison)?;
    if !tokens.is_operator(Level::Comparison) {
        return Ok(left);
    }
    let (op, right) = tail(alloc, tokens, Level::Comparison)?;
    Ok(two(alloc, op, left, right)?)
}

#[cycle(expression)]
#[tactic(auto, unfolding(bs_tree::specs::Grammar::unary))]
fn unary(alloc: Global, tokens: &mut Cursor<'_>) -> Result<Expr, Stop>
    ensures { Follows rule.unary result tokens.old tokens.new }
{
    if tokens.is_mark(Mark::Minus) {
        tokens.mark(Role::Operand, Mark::Minus)?;
        let inner = primary(alloc, tokens)?;
        Ok(Expr::Neg(Boxed::new(alloc, inner)?))
    } else if tokens.is_mark(Mark::Not) {
        tokens.mark(Role::Operand, Mark::Not)?;
        let inner = primary(alloc, tokens)?;
        Ok(Expr::Not(Boxed::new(alloc, inner)?))
    } else {
        primary(alloc, tokens)
    }
}

#[cycle(expression)]
#[tactic(auto, unfolding(bs_tree::specs::Grammar::primary))]
fn primary(alloc: Global, tokens: &mut Cursor<'_>) -> Result<Expr, Stop>
    ensures { Follows rule.primary result tokens.old tokens.new }
{
    if tokens.is_number() {
        tokens.literal()
    } else if tokens.is_name() {
        cell(alloc, tokens)
    } else if tokens.is_word(Word::This) {
        tokens.word(Role::Operand, Word::This)?;
        Ok(Expr::This)
    } else if tokens.is_word(Word::Chares) {
        tokens.word(Role::Operand, Word::Chares)?;
        Ok(Expr::Chares)
    } else {
        group(alloc, tokens, Role::Operand)
    }
}

// A scalar, or a cell of an array.
#[cycle(expression)]
#[tactic(auto, unfolding(bs_tree::specs::Grammar::index))]
fn cell(alloc: Global, tokens: &mut Cursor<'_>) -> Result<Expr, Stop>
    ensures { Follows rule.cell result tokens.old tokens.new }
{
    let name = tokens.name(Role::Operand)?;
    if !tokens.is_mark(Mark::BracketLeft) {
        return Ok(Expr::Var(name));
    }
    let at = index(alloc, tokens, Role::Operand)?;
    Ok(Expr::At(name, Boxed::new(alloc, at)?))
}

/// An expression in square brackets.
#[cycle(expression)]
#[tactic(auto, unfolding(bs_tree::specs::Grammar::index))]
pub fn index(alloc: Global, tokens: &mut Cursor<'_>, role: Role) -> Result<Expr, Stop>
    requires { closing (role_of role) ≡ role_of role }
    ensures { Follows (rule.index (role_of role)) result tokens.old tokens.new }
{
    tokens.mark(role, Mark::BracketLeft)?;
    let inner = expression(alloc, tokens);
    tokens.close(role, Mark::BracketRight, inner)
}

/// An expression in parentheses.
#[cycle(expression)]
#[tactic(auto, unfolding(bs_tree::specs::Grammar::group))]
pub fn group(alloc: Global, tokens: &mut Cursor<'_>, role: Role) -> Result<Expr, Stop>
    requires { closing (role_of role) ≡ role_of role }
    ensures { Follows (rule.group (role_of role)) result tokens.old tokens.new }
{
    tokens.mark(role, Mark::ParenLeft)?;
    let inner = expression(alloc, tokens);
    tokens.close(role, Mark::ParenRight, inner)
}
