// The parts of an overlap that are done.
ghost use Rattle.std.specs.Prelude.{◌≡◌, IfOk, IsTrue};
ghost use Rattle.bs_semantics.specs.Run.{both};
ghost use Rattle.bs_block.specs.Env.{MadeFor};
ghost use Rattle.bs_history.specs.declared.trail.Trail.{Trail};
ghost use Rattle.bs_check.specs.Fits.{is_fit};
ghost use Rattle.bs_history.specs.Ground.{IsReady, means, program_of, reached};
ghost use Rattle.bs_history.specs.Joined.{IsJoined, IsMade, state_in};

use crate::ground::{Ground, State};
use crate::writes::take_written;
use bs_tree::Stmt;
use std::alloc::AllocError;

// One more part beside those so far, or `None` where one of them hasn't ended.
pub(crate) fn join(
    ground: &Ground,
    stmt: &Stmt,
    joined: Option<State>,
    part: State,
    ended: bool,
) -> Result<Option<State>, AllocError>
    requires fits { IsTrue (is_fit (program_of ground.now) stmt.now) }
    requires joined { IsMade (program_of ground.now) joined }
    requires part { MadeFor (program_of ground.now) part.env }
    ensures both { IfOk result (λ next. state_in next ≡ both (means ground.now stmt.now).writes (state_in joined) (reached ended part)) }
    ensures ready { IfOk result (λ next. (t : Trail) → IsReady ground.now t part → IsJoined ground.now t joined → IsJoined ground.now t next) }
{
    match joined {
        Some(joined) if ended => Ok(Some(beside(ground, stmt, joined, part)?)),
        _ => Ok(None),
    }
}

ghost use Rattle.std.specs.Prelude.{max};
ghost use Rattle.bs_semantics.specs.Run.{depth_of, mix, union};
ghost use Rattle.bs_history.specs.Ground.{state_of};

// The state with what the part writes and the part's causes.
fn beside(ground: &Ground, stmt: &Stmt, joined: State, part: State) -> Result<State, AllocError>
    requires fits { IsTrue (is_fit (program_of ground.now) stmt.now) }
    requires joined { MadeFor (program_of ground.now) joined.env }
    requires part { MadeFor (program_of ground.now) part.env }
    ensures state { IfOk result (λ next. state_of next ≡ record { cells = mix (means ground.now stmt.now).writes 0 part.env.cells joined.env.cells; causes = union joined.causes part.causes }) }
    ensures this { IfOk result (λ next. next.env.this ≡ joined.env.this) }
    ensures made { IfOk result (λ next. MadeFor (program_of ground.now) next.env) }
{
    let State { mut env, causes } = joined;
    take_written(ground, stmt, &part.env, &mut env);
    let causes = causes.union(part.causes)?;
    Ok(State { env, causes })
}
