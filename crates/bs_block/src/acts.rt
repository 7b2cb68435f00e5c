// What acts do.
ghost use Rattle.std.specs.Prelude.{◌≡◌, IsTrue, map};
ghost use Rattle.bs_check.specs.Known.{are_counted, are_known, is_counted_act, is_known_act};
ghost use Rattle.bs_semantics.specs.Acts.{act_of, count_turns, do_all, times};
ghost use Rattle.bs_block.specs.Env.{MadeFor};
ghost use Rattle.bs_block.specs.Progress.{Leaves, tally_of};

use crate::cells::{cell_at, scalar_cell};
use crate::done::BlockFault;
use crate::draft::Draft;
use crate::progress::Progress;
use crate::sending::{send, up_to};
use bs_check::Accepted;
use bs_log::TrapKind;
use bs_tree::Act;
use std::alloc::Global;

// The greatest amount of one `work`.
const WORK: u64 = 1 << 30;

// One act. A step is counted before anything else.
#[cycle(acts)]
fn run_act(
    alloc: Global,
    accepted: &Accepted,
    act: &Act,
    draft: &mut Draft,
    progress: &mut Progress,
) -> Result<(), BlockFault>
    requires known { IsTrue (is_known_act accepted.now.program act.now) }
    requires counted { IsTrue (is_counted_act accepted.now.program act.now) }
    requires made { MadeFor accepted.now.program draft.old.now }
    ensures this { draft.new.now.this ≡ draft.old.now.this }
    ensures before { draft.new.before ≡ draft.old.before }
    ensures made { MadeFor accepted.now.program draft.new.now }
    ensures did { Leaves (act_of accepted.now.program draft.old.now.this act.now (tally_of draft.old.now progress.old)) (tally_of draft.new.now progress.new) result }
{
    progress.step()?;
    match act {
        Act::Set(name, expr) => {
            let value = draft.value(accepted, expr)?;
            draft.set(scalar_cell(accepted, *name), value)?;
            Ok(())
        }
        Act::SetAt(name, index, expr) => {
            let index = draft.value(accepted, index)?;
            let value = draft.value(accepted, expr)?;
            draft.set(cell_at(accepted, *name, index)?, value)?;
            Ok(())
        }
        Act::Work(expr) => {
            let value = draft.value(accepted, expr)?;
            let amount = up_to(WORK, TrapKind::WorkRange, value)?;
            progress.work(amount)?;
            Ok(())
        }
        Act::Emit(expr) => {
            let value = draft.value(accepted, expr)?;
            progress.emits.push(value)?;
            Ok(())
        }
        Act::If(test, body, other) => {
            let value = draft.value(accepted, test)?;
            if value != 0 {
                run_acts(alloc, accepted, body.as_slice(), draft, progress)
            } else if let Some(acts) = other {
                run_acts(alloc, accepted, acts.as_slice(), draft, progress)
            } else {
                Ok(())
            }
        }
        Act::Repeat(turns, body) => {
            let turns = draft.value(accepted, turns)?;
            repeat(
                alloc,
                accepted,
                body.as_slice(),
                turn_count(turns),
                draft,
                progress,
            )
        }
        Act::Send(entry, reference, args, target, bytes) => send(
            alloc,
            accepted,
            *entry,
            reference,
            args.as_slice(),
            target,
            bytes,
            draft,
            progress,
        ),
    }
}

// A list of acts, in their order.
#[cycle(acts)]
pub(crate) fn run_acts(
    alloc: Global,
    accepted: &Accepted,
    acts: &[Act],
    draft: &mut Draft,
    progress: &mut Progress,
) -> Result<(), BlockFault>
    requires known { IsTrue (are_known accepted.now.program acts.now) }
    requires counted { IsTrue (are_counted accepted.now.program acts.now) }
    requires made { MadeFor accepted.now.program draft.old.now }
    ensures this { draft.new.now.this ≡ draft.old.now.this }
    ensures before { draft.new.before ≡ draft.old.before }
    ensures made { MadeFor accepted.now.program draft.new.now }
    ensures did { Leaves (do_all (map (act_of accepted.now.program draft.old.now.this) acts.now) (tally_of draft.old.now progress.old)) (tally_of draft.new.now progress.new) result }
{
    for act in acts {
        run_act(alloc, accepted, act, draft, progress)?;
    }
    Ok(())
}

// A number below 1 is no turn.
fn turn_count(turns: i64) -> u64
    ensures { result ≡ count_turns turns }
{
    match u64::try_from(turns) {
        Ok(turns) => turns,
        Err(_) => 0,
    }
}

// A list of acts, so many times. Each turn is a step, so the steps end it.
#[cycle(acts)]
fn repeat(
    alloc: Global,
    accepted: &Accepted,
    acts: &[Act],
    turns: u64,
    draft: &mut Draft,
    progress: &mut Progress,
) -> Result<(), BlockFault>
    requires known { IsTrue (are_known accepted.now.program acts.now) }
    requires counted { IsTrue (are_counted accepted.now.program acts.now) }
    requires made { MadeFor accepted.now.program draft.old.now }
    ensures this { draft.new.now.this ≡ draft.old.now.this }
    ensures before { draft.new.before ≡ draft.old.before }
    ensures made { MadeFor accepted.now.program draft.new.now }
    ensures did { Leaves (times turns (map (act_of accepted.now.program draft.old.now.this) acts.now) (tally_of draft.old.now progress.old)) (tally_of draft.new.now progress.new) result }
{
    for _turn in 0..turns {
        progress.step()?;
        run_acts(alloc, accepted, acts, draft, progress)?;
    }
    Ok(())
}
