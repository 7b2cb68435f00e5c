// Which variable two parts of an `overlap` share, where one of them writes it.
ghost use Rattle.std.specs.Prelude.{◌≡◌, ◌+◌, ◌<◌, ◌≤◌, All, length};
ghost use Rattle.bs_check.specs.Interference.{interference_from};
ghost use Rattle.bs_check.specs.Touches.{Follows, IsBehind, IsFlagged, after_parts, seen, shared_from, size};
ghost use Rattle.bs_tree.specs.declared.tree.NameId.{NameId as TheName};

use crate::fault::Rule;
use crate::touches::Touches;
use crate::uses::note_stmt;
use bs_tree::{List, Stmt, VarDecl};

// The interference of the parts of an `overlap`, whose number is above those before.
pub(crate) fn interference(
    touches: &mut Touches,
    overlap: u32,
    vars: &[VarDecl],
    parts: &List<Stmt>,
) -> Option<Rule>
    requires behind { IsBehind touches.old overlap }
    requires names { All (λ v. v.name.0 < size touches.old) vars.now }
    requires few_vars { length vars.now ≤ 1000 }
    requires few_parts { length parts.now ≤ 10000 }
    ensures rule { result ≡ interference_from 0 vars.now parts.now }
    ensures size { size touches.new ≡ size touches.old }
    ensures behind { IsBehind touches.new (overlap + 1) }
{
    touches.start(overlap);
    note_parts(touches, parts);
    first_shared(touches, vars)
}

fn note_parts(touches: &mut Touches, parts: &List<Stmt>)
    requires { length parts.now ≤ 10000 }
    ensures follows { Follows touches.old touches.new }
    ensures parts { (name : TheName) → name.0 < size touches.old → seen touches.new name ≡ after_parts name 0 parts.now (seen touches.old name) }
{
    let mut number: u32 = 0;
    for part in parts.as_slice() {
        touches.turn_to(number);
        note_stmt(touches, part);
        number += 1;
    }
}

fn first_shared(touches: &Touches, vars: &[VarDecl]) -> Option<Rule>
    requires few { length vars.now ≤ 1000 }
    requires flagged { IsFlagged touches.now }
    ensures { result ≡ shared_from 0 vars.now touches.now }
{
    if !touches.may_clash() {
        return None;
    }
    let mut number: u32 = 0;
    for var in vars {
        if let Some(rule) = touches.shared(var.name, number) {
            return Some(rule);
        }
        number += 1;
    }
    None
}
