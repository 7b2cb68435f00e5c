// Whether the statements of a program keep the rules.
ghost use Rattle.std.specs.Prelude.{◌≡◌, ◌+◌, ◌≤◌, ◌∷◌, IfNone, IfOk, length};
ghost use Rattle.bs_check.specs.Every.{every, listed};
ghost use Rattle.bs_check.specs.Rules.{broken_rule, interference, is_few, is_idle, is_stmt_counted, is_stmt_known};
ghost use Rattle.bs_check.specs.Touches.{IsBehind, size};
ghost use Rattle.bs_check.specs.Walked.{Walked};
ghost use Rattle.bs_tree.specs.Spends.{any_stmt_spends};

use crate::fault::{CheckFault, Rule};
use crate::interference::interference;
use crate::known::{counts_acts, counts_waits, knows_acts, knows_expr, knows_waits};
use crate::names::Names;
use crate::touches::Touches;
use bs_tree::{List, Stmt, spends};

// Looks at the statements of a list and inside them, the first of which has this number. The number of
// the next statement, or the first that breaks a rule.
#[cycle(statements)]
pub(crate) fn check_body(
    names: &Names,
    touches: &mut Touches,
    body: &List<Stmt>,
    number: u32,
) -> Result<u32, CheckFault>
    requires size { size touches.old ≡ length names.now.program.names }
    requires behind { IsBehind touches.old number }
    requires few { number + length (every body.now) ≤ 10001 }
    ensures walked { Walked names.now.program number (every body.now) result }
    ensures size { size touches.new ≡ size touches.old }
    ensures behind { IfOk result (λ next. IsBehind touches.new next) }
{
    let mut next = number;
    for stmt in body.as_slice() {
        next = check_stmt(names, touches, stmt, next)?;
    }
    Ok(next)
}

#[cycle(statements)]
fn check_stmt(
    names: &Names,
    touches: &mut Touches,
    stmt: &Stmt,
    number: u32,
) -> Result<u32, CheckFault>
    requires size { size touches.old ≡ length names.now.program.names }
    requires behind { IsBehind touches.old number }
    requires few { number + 1 + length (listed stmt.now).inside ≤ 10001 }
    ensures walked { Walked names.now.program number (stmt.now ∷ (listed stmt.now).inside) result }
    ensures size { size touches.new ≡ size touches.old }
    ensures behind { IfOk result (λ next. IsBehind touches.new next) }
{
    if let Some(rule) = first_rule(names, touches, stmt, number) {
        return Err(CheckFault::Refused(number, rule));
    }
    check_inside(names, touches, stmt, number + 1)
}

#[cycle(statements)]
fn check_inside(
    names: &Names,
    touches: &mut Touches,
    stmt: &Stmt,
    number: u32,
) -> Result<u32, CheckFault>
    requires size { size touches.old ≡ length names.now.program.names }
    requires behind { IsBehind touches.old number }
    requires few { number + length (listed stmt.now).inside ≤ 10001 }
    ensures walked { Walked names.now.program number (listed stmt.now).inside result }
    ensures size { size touches.new ≡ size touches.old }
    ensures behind { IfOk result (λ next. IsBehind touches.new next) }
{
    match stmt {
        Stmt::Serial(_) => Ok(number),
        Stmt::When(_, body) => check_body(names, touches, body, number),
        Stmt::Overlap(body) => check_body(names, touches, body, number),
        Stmt::For(_, _, _, _, _, body) => check_body(names, touches, body, number),
        Stmt::While(_, body) => check_body(names, touches, body, number),
        Stmt::If(_, body, other) => {
            let next = check_body(names, touches, body, number)?;
            match other {
                Some(other) => check_body(names, touches, other, next),
                None => Ok(next),
            }
        }
        Stmt::Seq(body) => check_body(names, touches, body, number),
    }
}

// The least rule that a statement breaks by itself.
#[tactic(auto, unfolding(crate::specs::Rules::broken_rule))]
fn first_rule(names: &Names, touches: &mut Touches, stmt: &Stmt, number: u32) -> Option<Rule>
    requires size { size touches.old ≡ length names.now.program.names }
    requires behind { IsBehind touches.old number }
    requires few { length (listed stmt.now).inside ≤ 10000 }
    ensures rule { result ≡ broken_rule names.now.program stmt.now }
    ensures size { size touches.new ≡ size touches.old }
    ensures behind { IfNone result (IsBehind touches.new (number + 1)) }
{
    if !knows(names, stmt) {
        return Some(Rule::UnknownName);
    }
    if !counts(names, stmt) {
        return Some(Rule::Arity);
    }
    if let Some(rule) = shares(names, touches, stmt, number) {
        return Some(rule);
    }
    if idles(stmt) {
        return Some(Rule::IdleLoop);
    }
    if has_few_waits(stmt) {
        None
    } else {
        Some(Rule::Limits)
    }
}

// Whether each of a statement's own names is declared as what it is used for.
#[tactic(auto, unfolding(crate::specs::Rules::is_stmt_known))]
fn knows(names: &Names, stmt: &Stmt) -> bool
    ensures { result ≡ is_stmt_known names.now.program stmt.now }
{
    match stmt {
        Stmt::Serial(acts) => knows_acts(names, acts),
        Stmt::When(waits, _) => knows_waits(names, waits),
        Stmt::Overlap(_) => true,
        Stmt::For(variable, first, test, stepped, step, _) => {
            names.is_scalar(*variable)
                && knows_expr(names, first)
                && knows_expr(names, test)
                && names.is_scalar(*stepped)
                && knows_expr(names, step)
        }
        Stmt::While(test, _) => knows_expr(names, test),
        Stmt::If(test, _, _) => knows_expr(names, test),
        Stmt::Seq(_) => true,
    }
}

// Whether each message that a statement sends or waits for has as many arguments as its entry has
// parameters.
#[tactic(auto, unfolding(crate::specs::Rules::is_stmt_counted))]
fn counts(names: &Names, stmt: &Stmt) -> bool
    ensures { result ≡ is_stmt_counted names.now.program stmt.now }
{
    match stmt {
        Stmt::Serial(acts) => counts_acts(names, acts),
        Stmt::When(waits, _) => counts_waits(names, waits),
        Stmt::Overlap(_) => true,
        Stmt::For(_, _, _, _, _, _) => true,
        Stmt::While(_, _) => true,
        Stmt::If(_, _, _) => true,
        Stmt::Seq(_) => true,
    }
}

#[tactic(auto, using(crate::proofs::Rows::behind_more), unfolding(crate::specs::Rules::interference))]
fn shares(names: &Names, touches: &mut Touches, stmt: &Stmt, number: u32) -> Option<Rule>
    requires size { size touches.old ≡ length names.now.program.names }
    requires behind { IsBehind touches.old number }
    requires few { length (listed stmt.now).inside ≤ 10000 }
    ensures rule { result ≡ interference names.now.program stmt.now }
    ensures size { size touches.new ≡ size touches.old }
    ensures behind { IsBehind touches.new (number + 1) }
{
    match stmt {
        Stmt::Serial(_) => None,
        Stmt::When(_, _) => None,
        Stmt::Overlap(parts) => interference(touches, number, names.program.vars.as_slice(), parts),
        Stmt::For(_, _, _, _, _, _) => None,
        Stmt::While(_, _) => None,
        Stmt::If(_, _, _) => None,
        Stmt::Seq(_) => None,
    }
}

// Whether a statement is a loop whose body may make no block.
#[tactic(auto, unfolding(crate::specs::Rules::is_idle))]
fn idles(stmt: &Stmt) -> bool
    ensures { result ≡ is_idle stmt.now }
{
    match stmt {
        Stmt::Serial(_) => false,
        Stmt::When(_, _) => false,
        Stmt::Overlap(_) => false,
        Stmt::For(_, _, _, _, _, body) => !any_spends(body),
        Stmt::While(_, body) => !any_spends(body),
        Stmt::If(_, _, _) => false,
        Stmt::Seq(_) => false,
    }
}

fn any_spends(body: &List<Stmt>) -> bool
    ensures { result ≡ any_stmt_spends body.now }
{
    for stmt in body.as_slice() {
        if spends(stmt) {
            return true;
        }
    }
    false
}

// Whether a statement waits for at most 64 messages.
#[tactic(auto, unfolding(crate::specs::Rules::is_few))]
fn has_few_waits(stmt: &Stmt) -> bool
    ensures { result ≡ is_few stmt.now }
{
    match stmt {
        Stmt::Serial(_) => true,
        Stmt::When(waits, _) => waits.as_slice().len() <= 64,
        Stmt::Overlap(_) => true,
        Stmt::For(_, _, _, _, _, _) => true,
        Stmt::While(_, _) => true,
        Stmt::If(_, _, _) => true,
        Stmt::Seq(_) => true,
    }
}
