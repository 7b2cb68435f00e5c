// What controls a chare: values, tests and assignments.
ghost use Rattle.std.specs.Prelude.{◌≡◌, ◌<◌, ℤ, Bool, IsTrue};
ghost use Rattle.bs_check.specs.Known.{is_known, is_scalar};
ghost use Rattle.bs_semantics.specs.Layout.{all_cells, place_of};
ghost use Rattle.bs_semantics.specs.Run.{assign, with};
ghost use Rattle.bs_semantics.specs.Value.{value_of};
ghost use Rattle.bs_history.specs.Control.{is_step_fit, is_true, step_of};
ghost use Rattle.bs_check.specs.Fits.{is_set_fit};
ghost use Rattle.bs_history.specs.Ground.{Finds, IsReady, Steps, program_of, state_of};

use crate::fault::HistoryFault;
use crate::ground::{Ground, State};
use crate::trail::Trail;
use bs_block::eval;
use bs_check::{Accepted, Kind};
use bs_tree::{Expr, NameId};

// What is assigned after each turn of a `for`.
#[derive(Clone, Copy)]
pub(crate) struct Step<'a> {
    pub name: NameId,
    pub value: &'a Expr,
}

// The value of an expression, or `None` after its trap was written.
fn value(
    ground: &Ground,
    expr: &Expr,
    number: u32,
    trail: &mut Trail,
    state: &State,
) -> Result<Option<i64>, HistoryFault>
    requires known { IsTrue (is_known (program_of ground.now) expr.now) }
    requires ready { IsReady ground.now trail.old state.now }
    ensures { Finds ground.now ℤ (with number trail.old.path.items (value_of (program_of ground.now) ground.now.this expr.now state.now.env.cells)) trail.old trail.new state.now result }
{
    match eval(ground.accepted, expr, &state.env) {
        Ok(value) => Ok(Some(value)),
        Err(kind) => {
            trail.trap(ground.alloc, number, kind, ground.room)?;
            Ok(None)
        }
    }
}

// Whether a test is true, or `None` after its trap was written.
pub(crate) fn test(
    ground: &Ground,
    expr: &Expr,
    number: u32,
    trail: &mut Trail,
    state: &State,
) -> Result<Option<bool>, HistoryFault>
    requires known { IsTrue (is_known (program_of ground.now) expr.now) }
    requires ready { IsReady ground.now trail.old state.now }
    ensures { Finds ground.now Bool (λ next. with number trail.old.path.items (value_of (program_of ground.now) ground.now.this expr.now state.now.env.cells) (λ v. next (is_true v))) trail.old trail.new state.now result }
{
    match value(ground, expr, number, trail, state)? {
        Some(value) => Ok(Some(value != 0)),
        None => Ok(None),
    }
}

// Gives a variable a value, or writes the trap of the value.
pub(crate) fn assign(
    ground: &Ground,
    name: NameId,
    expr: &Expr,
    number: u32,
    trail: &mut Trail,
    state: &mut State,
) -> Result<bool, HistoryFault>
    requires fits { IsTrue (is_set_fit (program_of ground.now) name expr.now) }
    requires ready { IsReady ground.now trail.old state.old }
    ensures { Steps ground.now (λ next. assign (λ s. value_of (program_of ground.now) ground.now.this expr.now s.cells) (place_of (program_of ground.now) name).from number trail.old.path.items next (state_of state.old)) trail.old trail.new state.new result }
{
    match value(ground, expr, number, trail, state)? {
        Some(value) => {
            state.env.set(scalar_cell(ground.accepted, name), value);
            Ok(true)
        }
        None => Ok(false),
    }
}

// What is done after a turn of a loop.
pub(crate) fn take_step(
    ground: &Ground,
    step: Option<Step>,
    number: u32,
    trail: &mut Trail,
    state: &mut State,
) -> Result<bool, HistoryFault>
    requires fits { IsTrue (is_step_fit (program_of ground.now) step) }
    requires ready { IsReady ground.now trail.old state.old }
    ensures { Steps ground.now (λ next. step_of ground.now step.entry number trail.old.path.items next (state_of state.old)) trail.old trail.new state.new result }
{
    match step {
        None => Ok(true),
        Some(step) => assign(ground, step.name, step.value, number, trail, state),
    }
}

// The cell of a scalar.
pub(crate) fn scalar_cell(accepted: &Accepted, name: NameId) -> u32
    requires { IsTrue (is_scalar accepted.now.program name) }
    ensures place { place_of accepted.now.program name ≡ record { from = result; cells = 1 } }
    ensures within { result < all_cells accepted.now.program.vars }
{
    match accepted.kind(name) {
        Kind::Scalar(cell) => cell,
        _ => unreachable!(),
    }
}
