// Whether names are declared as what they are used for, and whether messages have as many arguments as
// their entries have parameters.
ghost use Rattle.std.specs.Prelude.{◌≡◌};
ghost use Rattle.bs_check.specs.Known.{are_counted, are_exprs_known, are_known, is_counted_act, is_known, is_known_act, is_known_if_given};
ghost use Rattle.bs_check.specs.Rules.{are_scalars, are_waits_counted, are_waits_known, is_wait_known};

use crate::names::Names;
use bs_tree::{Act, Expr, List, NameId, Wait};

pub(crate) fn knows_expr(names: &Names, expr: &Expr) -> bool
    ensures { result ≡ is_known names.now.program expr.now }
{
    match expr {
        Expr::Number(_) => true,
        Expr::Var(variable) => names.is_scalar(*variable),
        Expr::At(array, index) => names.is_array(*array) && knows_expr(names, index.get()),
        Expr::This => true,
        Expr::Chares => true,
        Expr::Neg(operand) => knows_expr(names, operand.get()),
        Expr::Not(operand) => knows_expr(names, operand.get()),
        Expr::Two(_, left, right) => {
            knows_expr(names, left.get()) && knows_expr(names, right.get())
        }
    }
}

fn knows_exprs(names: &Names, exprs: &List<Expr>) -> bool
    ensures { result ≡ are_exprs_known names.now.program exprs.now }
{
    for expr in exprs.as_slice() {
        if !knows_expr(names, expr) {
            return false;
        }
    }
    true
}

fn knows_if_given(names: &Names, expr: &Option<Expr>) -> bool
    ensures { result ≡ is_known_if_given names.now.program expr.now }
{
    match expr {
        Some(expr) => knows_expr(names, expr),
        None => true,
    }
}

#[cycle(known)]
fn knows_act(names: &Names, act: &Act) -> bool
    ensures { result ≡ is_known_act names.now.program act.now }
{
    match act {
        Act::Set(variable, value) => names.is_scalar(*variable) && knows_expr(names, value),
        Act::SetAt(array, index, value) => {
            names.is_array(*array) && knows_expr(names, index) && knows_expr(names, value)
        }
        Act::Send(entry, reference, args, target, bytes) => {
            names.is_entry(*entry)
                && knows_expr(names, reference)
                && knows_exprs(names, args)
                && knows_expr(names, target)
                && knows_if_given(names, bytes)
        }
        Act::Work(amount) => knows_expr(names, amount),
        Act::Emit(value) => knows_expr(names, value),
        Act::If(test, body, other) => {
            let first = knows_expr(names, test) && knows_acts(names, body);
            match other {
                Some(body) => first && knows_acts(names, body),
                None => first,
            }
        }
        Act::Repeat(times, body) => knows_expr(names, times) && knows_acts(names, body),
    }
}

#[cycle(known)]
pub(crate) fn knows_acts(names: &Names, acts: &List<Act>) -> bool
    ensures { result ≡ are_known names.now.program acts.now }
{
    for act in acts.as_slice() {
        if !knows_act(names, act) {
            return false;
        }
    }
    true
}

#[cycle(counted)]
fn counts_act(names: &Names, act: &Act) -> bool
    ensures { result ≡ is_counted_act names.now.program act.now }
{
    match act {
        Act::Send(entry, _, args, _, _) => names.takes(*entry, args.as_slice().len()),
        Act::If(_, body, other) => {
            let first = counts_acts(names, body);
            match other {
                Some(body) => first && counts_acts(names, body),
                None => first,
            }
        }
        Act::Repeat(_, body) => counts_acts(names, body),
        Act::Set(_, _) => true,
        Act::SetAt(_, _, _) => true,
        Act::Work(_) => true,
        Act::Emit(_) => true,
    }
}

#[cycle(counted)]
pub(crate) fn counts_acts(names: &Names, acts: &List<Act>) -> bool
    ensures { result ≡ are_counted names.now.program acts.now }
{
    for act in acts.as_slice() {
        if !counts_act(names, act) {
            return false;
        }
    }
    true
}

fn are_all_scalars(names: &Names, params: &List<NameId>) -> bool
    ensures { result ≡ are_scalars names.now.program params.now }
{
    for param in params.as_slice() {
        if !names.is_scalar(*param) {
            return false;
        }
    }
    true
}

fn knows_wait(names: &Names, wait: &Wait) -> bool
    ensures { result ≡ is_wait_known names.now.program wait.now }
{
    names.is_entry(wait.entry)
        && knows_expr(names, &wait.reference)
        && are_all_scalars(names, &wait.params)
}

pub(crate) fn knows_waits(names: &Names, waits: &List<Wait>) -> bool
    ensures { result ≡ are_waits_known names.now.program waits.now }
{
    for wait in waits.as_slice() {
        if !knows_wait(names, wait) {
            return false;
        }
    }
    true
}

pub(crate) fn counts_waits(names: &Names, waits: &List<Wait>) -> bool
    ensures { result ≡ are_waits_counted names.now.program waits.now }
{
    for wait in waits.as_slice() {
        if !names.takes(wait.entry, wait.params.as_slice().len()) {
            return false;
        }
    }
    true
}
