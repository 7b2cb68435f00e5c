// The environment during a block, which may have to be given back as it was.
ghost use Rattle.std.specs.Prelude.{◌≡◌, ◌<◌, IsTrue, OnErr, OnOk, length, slice_set};
ghost use Rattle.bs_check.specs.Known.{is_known};
ghost use Rattle.bs_semantics.specs.Value.{value_of};
ghost use Rattle.bs_block.specs.Draft.{fresh};
ghost use Rattle.bs_block.specs.Env.{MadeFor};

use crate::env::Env;
use crate::expression::eval;
use bs_check::Accepted;
use bs_log::TrapKind;
use bs_tree::Expr;
use std::alloc::{AllocError, Global};
use std::marker::Model;

// A cell, and what it held.
#[derive(Clone, Copy, Drop)]
struct Held {
    cell: u32,
    value: i64,
}

// An environment that can be given back as it was, at the cost of the writes alone.
#[derive(Drop)]
pub(crate) struct Draft {
    env: Env,
    held: Vec<Held>,
}

impl Model for Draft {
    ghost use Rattle.bs_block.specs.Draft.{Drafted, drafted_code};

    ghost Value = { Drafted };

    ghost coded = { drafted_code };

    ghost use Rattle.bs_block.specs.DraftFields.{IsSound, drafted_of};

    ghost view = { drafted_of };

    ghost invariant = { IsSound };
}

impl Draft {
    // It takes no memory.
    pub fn new(alloc: Global, env: Env) -> Draft
        ensures { result ≡ fresh env }
    {
        Draft {
            env,
            held: Vec::new(alloc),
        }
    }

    // The value of an expression for the cells as they are now.
    pub fn value(&self, accepted: &Accepted, expr: &Expr) -> Result<i64, TrapKind>
        requires known { IsTrue (is_known accepted.now.program expr.now) }
        requires made { MadeFor accepted.now.program self.now.now }
        ensures { result ≡ value_of accepted.now.program self.now.now.this expr.now self.now.now.cells }
    {
        eval(accepted, expr, &self.env)
    }

    // Makes a cell hold a value. Where memory is wanting, nothing changes.
    pub fn set(&mut self, cell: u32, value: i64) -> Result<(), AllocError>
        requires { cell < length self.old.now.cells }
        ensures ok { OnOk result (self.new ≡ record self.old { now = record self.old.now { cells = slice_set self.old.now.cells cell value } }) }
        ensures err { OnErr result (self.new ≡ self.old) }
    {
        let held = Held {
            cell,
            value: self.env.get(cell),
        };
        self.held.push(held)?;
        self.env.set(cell, value);
        Ok(())
    }

    // The environment that the block leaves.
    pub fn keep(self) -> Env
        ensures { result ≡ self.now }
    {
        let Draft { env, .. } = self;
        env
    }

    // The environment as it was before the block.
    pub fn give_back(self) -> Env
        ensures { result ≡ record self.now { cells = self.before } }
    {
        let Draft { mut env, mut held } = self;
        while let Some(was) = held.pop() {
            put_back(&mut env, was);
        }
        env
    }
}

fn put_back(env: &mut Env, was: Held)
    requires { was.cell < length env.old.cells }
    ensures { env.new ≡ record env.old { cells = slice_set env.old.cells was.cell was.value } }
{
    env.set(was.cell, was.value);
}
