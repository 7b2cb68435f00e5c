// What an expression is worth.
ghost use Rattle.std.specs.Prelude.{◌≡◌, IsTrue};
ghost use Rattle.bs_check.specs.Known.{is_known};
ghost use Rattle.bs_semantics.specs.Value.{value_of};
ghost use Rattle.bs_block.specs.Env.{MadeFor};

use crate::arithmetic::{apply, bit, decided, negated};
use crate::cells::{cell_at, scalar_cell};
use crate::env::Env;
use bs_check::Accepted;
use bs_log::TrapKind;
use bs_tree::Expr;

/// The value of an expression of an accepted program for a chare and what its cells hold, or why it
/// has none. The environment is one of this program's, and the names of the expression are declared
/// as what they are used for. It takes no memory.
pub fn eval(accepted: &Accepted, expr: &Expr, env: &Env) -> Result<i64, TrapKind>
    requires known { IsTrue (is_known accepted.now.program expr.now) }
    requires made { MadeFor accepted.now.program env.now }
    ensures { result ≡ value_of accepted.now.program env.now.this expr.now env.now.cells }
{
    match expr {
        Expr::Number(number) => Ok(*number),
        Expr::Var(name) => Ok(env.get(scalar_cell(accepted, *name))),
        Expr::At(name, index) => {
            let index = eval(accepted, index.get(), env)?;
            let cell = cell_at(accepted, *name, index)?;
            Ok(env.get(cell))
        }
        Expr::This => Ok(i64::from(env.this())),
        Expr::Chares => Ok(i64::from(accepted.chares())),
        Expr::Neg(operand) => {
            let value = eval(accepted, operand.get(), env)?;
            negated(value)
        }
        Expr::Not(operand) => {
            let value = eval(accepted, operand.get(), env)?;
            Ok(bit(value == 0))
        }
        Expr::Two(op, left, right) => {
            let left = eval(accepted, left.get(), env)?;
            match decided(*op, left) {
                Some(value) => Ok(value),
                None => {
                    let right = eval(accepted, right.get(), env)?;
                    apply(*op, left, right)
                }
            }
        }
    }
}
