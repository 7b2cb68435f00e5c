// Operators on values of 64 bits.
ghost use Rattle.std.specs.Prelude.{◌≡◌, pos, ◌+ℤ◌, ◌-ℤ◌, ◌*ℤ◌, int_div, int_rem};
ghost use Rattle.bs_semantics.specs.Value.{apply as value_of_both, bit as value_of_bit, decided as value_decided, divided, in_range};

use bs_log::TrapKind;
use bs_tree::Op2;

pub(crate) fn bit(test: bool) -> i64
    ensures { result ≡ value_of_bit test }
{
    if test { 1 } else { 0 }
}

// The value that the left operand decides alone, if it does.
pub(crate) fn decided(op: Op2, left: i64) -> Option<i64>
    ensures { result ≡ value_decided op left }
{
    match op {
        Op2::Or if left != 0 => Some(1),
        Op2::And if left == 0 => Some(0),
        _ => None,
    }
}

pub(crate) fn negated(value: i64) -> Result<i64, TrapKind>
    ensures { result ≡ in_range (pos 0 -ℤ value) }
{
    match 0i64.checked_sub(value) {
        Some(value) => Ok(value),
        None => Err(TrapKind::Overflow),
    }
}

fn sum(left: i64, right: i64) -> Result<i64, TrapKind>
    ensures { result ≡ in_range (left +ℤ right) }
{
    match left.checked_add(right) {
        Some(value) => Ok(value),
        None => Err(TrapKind::Overflow),
    }
}

fn difference(left: i64, right: i64) -> Result<i64, TrapKind>
    ensures { result ≡ in_range (left -ℤ right) }
{
    match left.checked_sub(right) {
        Some(value) => Ok(value),
        None => Err(TrapKind::Overflow),
    }
}

fn product(left: i64, right: i64) -> Result<i64, TrapKind>
    ensures { result ≡ in_range (left *ℤ right) }
{
    match left.checked_mul(right) {
        Some(value) => Ok(value),
        None => Err(TrapKind::Overflow),
    }
}

fn quotient(left: i64, right: i64) -> Result<i64, TrapKind>
    ensures { result ≡ divided int_div left right }
{
    if right == 0 {
        Err(TrapKind::ZeroDivisor)
    } else if right == -1 && left == i64::MIN {
        Err(TrapKind::Overflow)
    } else {
        Ok(left / right)
    }
}

fn remainder(left: i64, right: i64) -> Result<i64, TrapKind>
    ensures { result ≡ divided int_rem left right }
{
    if right == 0 {
        Err(TrapKind::ZeroDivisor)
    } else if right == -1 && left == i64::MIN {
        Err(TrapKind::Overflow)
    } else {
        Ok(left % right)
    }
}

// The operator's value where the right operand was asked for.
pub(crate) fn apply(op: Op2, left: i64, right: i64) -> Result<i64, TrapKind>
    ensures { result ≡ value_of_both op left right }
{
    match op {
        Op2::Or => Ok(bit(right != 0)),
        Op2::And => Ok(bit(right != 0)),
        Op2::Eq => Ok(bit(left == right)),
        Op2::Ne => Ok(bit(left != right)),
        Op2::Lt => Ok(bit(left < right)),
        Op2::Le => Ok(bit(left <= right)),
        Op2::Gt => Ok(bit(left > right)),
        Op2::Ge => Ok(bit(left >= right)),
        Op2::Add => sum(left, right),
        Op2::Sub => difference(left, right),
        Op2::Mul => product(left, right),
        Op2::Div => quotient(left, right),
        Op2::Rem => remainder(left, right),
    }
}
