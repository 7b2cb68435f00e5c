// What is taken from a part of an overlap: the cells of each variable that the part writes.
ghost use Rattle.std.specs.Prelude.{◌≡◌, ◌≤◌, ◌<◌, ◌+◌, IsTrue, get_or, length, map, pos, slice_set};
ghost use Rattle.bs_check.specs.Known.{all_true, are_known, is_array, is_known_act, is_scalar};
ghost use Rattle.bs_semantics.specs.Acts.{act_writes, any_writes};
ghost use Rattle.bs_semantics.specs.Layout.{all_cells, owns};
ghost use Rattle.bs_semantics.specs.Run.{any_part, params_own, waits_own};
ghost use Rattle.bs_block.specs.Env.{MadeFor};
ghost use Rattle.bs_check.specs.Fits.{are_fit, are_waits_fit, is_fit};
ghost use Rattle.bs_history.specs.Ground.{means, program_of};
ghost use Rattle.bs_history.specs.Taken.{Takes, between};

use crate::control::scalar_cell;
use crate::ground::Ground;
use bs_block::Env;
use bs_check::{Accepted, Kind};
use bs_tree::{Act, NameId, Stmt, Wait};

// Takes the cells that a part writes from that part. A variable that is written at more than one place
// is taken at each of them.
#[cycle(take)]
pub(crate) fn take_written(ground: &Ground, stmt: &Stmt, part: &Env, env: &mut Env)
    requires fits { IsTrue (is_fit (program_of ground.now) stmt.now) }
    requires part { MadeFor (program_of ground.now) part.now }
    requires made { MadeFor (program_of ground.now) env.old }
    ensures taken { Takes (means ground.now stmt.now).writes part.now env.old env.new }
    ensures made { MadeFor (program_of ground.now) env.new }
{
    match stmt {
        Stmt::Serial(acts) => take_acts(ground.accepted, acts.as_slice(), part, env),
        Stmt::When(waits, body) => {
            take_waits(ground.accepted, waits.as_slice(), part, env);
            take_list(ground, body.as_slice(), part, env);
        }
        Stmt::Overlap(body) => take_list(ground, body.as_slice(), part, env),
        Stmt::For(first, _, _, next, _, body) => {
            take_scalar(ground.accepted, *first, part, env);
            take_scalar(ground.accepted, *next, part, env);
            take_list(ground, body.as_slice(), part, env);
        }
        Stmt::While(_, body) => take_list(ground, body.as_slice(), part, env),
        Stmt::If(_, body, other) => {
            take_list(ground, body.as_slice(), part, env);
            if let Some(other) = other {
                take_list(ground, other.as_slice(), part, env);
            }
        }
        Stmt::Seq(body) => take_list(ground, body.as_slice(), part, env),
    }
}

#[cycle(take)]
fn take_list(ground: &Ground, body: &[Stmt], part: &Env, env: &mut Env)
    requires fits { IsTrue (are_fit (program_of ground.now) body.now) }
    requires part { MadeFor (program_of ground.now) part.now }
    requires made { MadeFor (program_of ground.now) env.old }
    ensures taken { Takes (any_part (map (means ground.now) body.now)) part.now env.old env.new }
    ensures made { MadeFor (program_of ground.now) env.new }
{
    for stmt in body {
        take_written(ground, stmt, part, env);
    }
}

// Takes the parameters of waits.
fn take_waits(accepted: &Accepted, waits: &[Wait], part: &Env, env: &mut Env)
    requires fits { IsTrue (are_waits_fit accepted.now.program waits.now) }
    requires part { MadeFor accepted.now.program part.now }
    requires made { MadeFor accepted.now.program env.old }
    ensures taken { Takes (waits_own accepted.now.program waits.now) part.now env.old env.new }
    ensures made { MadeFor accepted.now.program env.new }
{
    for wait in waits {
        take_scalars(accepted, wait.params.as_slice(), part, env);
    }
}

fn take_scalars(accepted: &Accepted, names: &[NameId], part: &Env, env: &mut Env)
    requires fits { IsTrue (all_true (map (is_scalar accepted.now.program) names.now)) }
    requires part { MadeFor accepted.now.program part.now }
    requires made { MadeFor accepted.now.program env.old }
    ensures taken { Takes (params_own accepted.now.program names.now) part.now env.old env.new }
    ensures made { MadeFor accepted.now.program env.new }
{
    for name in names {
        take_scalar(accepted, *name, part, env);
    }
}

// Takes what acts assign to.
#[cycle(acts)]
fn take_acts(accepted: &Accepted, acts: &[Act], part: &Env, env: &mut Env)
    requires known { IsTrue (are_known accepted.now.program acts.now) }
    requires part { MadeFor accepted.now.program part.now }
    requires made { MadeFor accepted.now.program env.old }
    ensures taken { Takes (any_writes (map (act_writes accepted.now.program) acts.now)) part.now env.old env.new }
    ensures made { MadeFor accepted.now.program env.new }
{
    for act in acts {
        take_act(accepted, act, part, env);
    }
}

#[cycle(acts)]
fn take_act(accepted: &Accepted, act: &Act, part: &Env, env: &mut Env)
    requires known { IsTrue (is_known_act accepted.now.program act.now) }
    requires part { MadeFor accepted.now.program part.now }
    requires made { MadeFor accepted.now.program env.old }
    ensures taken { Takes (act_writes accepted.now.program act.now) part.now env.old env.new }
    ensures made { MadeFor accepted.now.program env.new }
{
    match act {
        Act::Set(name, _) => take_scalar(accepted, *name, part, env),
        Act::SetAt(name, _, _) => take_array(accepted, *name, part, env),
        Act::Send(_, _, _, _, _) => {}
        Act::Work(_) => {}
        Act::Emit(_) => {}
        Act::If(_, body, other) => {
            take_acts(accepted, body.as_slice(), part, env);
            if let Some(other) = other {
                take_acts(accepted, other.as_slice(), part, env);
            }
        }
        Act::Repeat(_, body) => take_acts(accepted, body.as_slice(), part, env),
    }
}

fn take_scalar(accepted: &Accepted, name: NameId, part: &Env, env: &mut Env)
    requires scalar { IsTrue (is_scalar accepted.now.program name) }
    requires part { MadeFor accepted.now.program part.now }
    requires made { MadeFor accepted.now.program env.old }
    ensures taken { Takes (owns accepted.now.program name) part.now env.old env.new }
    ensures made { MadeFor accepted.now.program env.new }
{
    let cell = scalar_cell(accepted, name);
    take_cells(accepted, cell, 1, part, env);
}

fn take_array(accepted: &Accepted, name: NameId, part: &Env, env: &mut Env)
    requires array { IsTrue (is_array accepted.now.program name) }
    requires part { MadeFor accepted.now.program part.now }
    requires made { MadeFor accepted.now.program env.old }
    ensures taken { Takes (owns accepted.now.program name) part.now env.old env.new }
    ensures made { MadeFor accepted.now.program env.new }
{
    match accepted.kind(name) {
        Kind::Array(from, cells) => take_cells(accepted, from, cells, part, env),
        _ => unreachable!(),
    }
}

// Takes so many cells from one on.
fn take_cells(accepted: &Accepted, from: u32, cells: u32, part: &Env, env: &mut Env)
    requires within { from + cells ≤ all_cells accepted.now.program.vars }
    requires part { MadeFor accepted.now.program part.now }
    requires made { MadeFor accepted.now.program env.old }
    ensures taken { Takes (between from (from + cells)) part.now env.old env.new }
    ensures made { MadeFor accepted.now.program env.new }
{
    let all = accepted.cells();
    prove!(cells <= all - from);
    for cell in from..from + cells {
        take_cell(cell, part, env);
    }
}

fn take_cell(cell: u32, part: &Env, env: &mut Env)
    requires part { cell < length part.now.cells }
    requires cell { cell < length env.old.cells }
    ensures { env.new ≡ record env.old { cells = slice_set env.old.cells cell (get_or part.now.cells cell (pos 0)) } }
{
    env.set(cell, part.get(cell));
}
