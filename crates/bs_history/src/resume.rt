// A run that goes on from what is left of it.
ghost use Rattle.bs_semantics.specs.Run.{then_do};
ghost use Rattle.bs_history.specs.declared.frame.Frame.TheVariants.{Loop};
ghost use Rattle.bs_history.specs.Ground.{IsReady, program_of, state_of};
ghost use Rattle.bs_history.specs.Frames.{AreFit, IsFrameFit, Resumes, Shows, frame_does, left_of};

use crate::control::take_step;
use crate::fault::HistoryFault;
use crate::frame::{Frame, Looped, is_done, put_behind};
use crate::ground::{Ground, State};
use crate::statements::{end_or_stop, run_asked, run_list, run_overlap, run_turns};
use crate::trail::Trail;
use bs_tree::List;

// What is left of a run, one thing after the other. Where one of them hasn't ended, the others stay behind it.
pub(crate) fn resume<'p>(
    ground: &Ground,
    frames: List<Frame<'p>>,
    trail: &mut Trail,
    state: &mut State,
) -> Result<List<Frame<'p>>, HistoryFault>
    requires fit { AreFit (program_of ground.now) frames }
    requires ready { IsReady ground.now trail.old state.old }
    ensures { Resumes ground.now (left_of ground.now frames.entry state.old) trail.old trail.new state.new result }
{
    let mut left = List::new(ground.alloc);
    for frame in frames.into_vec() {
        left = go_past(ground, left, frame, trail, state)?;
    }
    Ok(left)
}

// One thing more behind what is left: it is done where nothing is left before it.
fn go_past<'p>(
    ground: &Ground,
    left: List<Frame<'p>>,
    frame: Frame<'p>,
    trail: &mut Trail,
    state: &mut State,
) -> Result<List<Frame<'p>>, HistoryFault>
    requires fit { IsFrameFit (program_of ground.now) frame }
    requires left { AreFit (program_of ground.now) left }
    requires shows { Shows ground.now left trail.old state.old }
    requires ready { IsReady ground.now trail.old state.old }
    ensures { Resumes ground.now (λ mail. then_do (left_of ground.now left.entry state.old mail) (frame_does ground.now frame.entry mail)) trail.old trail.new state.new result }
{
    if is_done(&left) {
        return run_frame(ground, frame, trail, state);
    }
    Ok(put_behind(left, frame)?)
}

// One thing that is left.
fn run_frame<'p>(
    ground: &Ground,
    frame: Frame<'p>,
    trail: &mut Trail,
    state: &mut State,
) -> Result<List<Frame<'p>>, HistoryFault>
    requires fit { IsFrameFit (program_of ground.now) frame }
    requires ready { IsReady ground.now trail.old state.old }
    ensures { Resumes ground.now (λ mail. frame_does ground.now frame.entry mail (state_of state.old)) trail.old trail.new state.new result }
{
    match frame {
        Frame::Stuck => end_or_stop(ground.alloc, false, trail),
        Frame::When(when) => {
            trail.path = when.path;
            run_asked(
                ground,
                when.keys,
                when.waits,
                when.body,
                when.number,
                trail,
                state,
            )
        }
        Frame::List(list) => {
            trail.path = list.path;
            run_list(ground, list.list, list.place, list.number, trail, state)
        }
        Frame::Loop(turns) => run_loop(ground, turns, trail, state),
        Frame::Overlap(overlap) => {
            trail.path = overlap.path;
            run_overlap(ground, overlap.body, overlap.number, trail, state)
        }
    }
}

// The turns of a loop that are left, after what is done between two turns.
fn run_loop<'p>(
    ground: &Ground,
    turns: Looped<'p>,
    trail: &mut Trail,
    state: &mut State,
) -> Result<List<Frame<'p>>, HistoryFault>
    requires fit { IsFrameFit (program_of ground.now) (Loop turns) }
    requires ready { IsReady ground.now trail.old state.old }
    ensures { Resumes ground.now (λ mail. frame_does ground.now (Loop turns.entry) mail (state_of state.old)) trail.old trail.new state.new result }
{
    let Looped {
        body,
        condition,
        step,
        turn,
        number,
        path,
    } = turns;
    trail.path = path;
    let stepped = take_step(ground, step, number, trail, state)?;
    if !stepped {
        return end_or_stop(ground.alloc, false, trail);
    }
    run_turns(ground, body, condition, step, turn, number, trail, state)
}
