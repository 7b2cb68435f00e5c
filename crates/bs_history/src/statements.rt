// What statements do.
ghost use Rattle.std.specs.Prelude.{◌≡◌, ◌≤◌, ◌<◌, ◌+◌, ◌-◌, ◌++◌, ◌∷◌, [], suc, false, drop, length, IfOk, IsTrue, map};
ghost use Rattle.bs_check.specs.Known.{is_known};
ghost use Rattle.bs_check.specs.Numbers.{StandsAt};
ghost use Rattle.bs_tree.specs.Count.{statements_in, statements_of};
ghost use Rattle.bs_semantics.specs.Run.{Lookup, Run, ask, assign, in_turn, keys_of, overlap, took, turns};
ghost use Rattle.bs_semantics.specs.Layout.{place_of};
ghost use Rattle.bs_semantics.specs.Value.{value_of};
ghost use Rattle.bs_history.specs.Control.{is_step_fit, step_of};
ghost use Rattle.bs_check.specs.Fits.{are_fit, are_waits_fit, is_fit, is_for_fit};
ghost use Rattle.bs_history.specs.Ground.{Did, IsReady, Runs, mail_of, means, program_of, state_of, stopped};
ghost use Rattle.bs_history.specs.declared.ground.Ground.{Ground as PlainGround};
ghost use Rattle.bs_history.specs.declared.ground.State.{State as RunState};
ghost use Rattle.bs_history.specs.declared.trail.Trail.{Trail as PlainTrail};
ghost use Rattle.bs_history.specs.Frames.{Ahead, Leaves, Leaving, awaited};

use crate::control::{Step, assign, take_step, test};
use crate::fault::HistoryFault;
use crate::frame::{Frame, Listed, Looped, Overlapped, Waiting, alone, is_done, put_behind};
use crate::ground::{Ground, State};
use crate::joined::join;
use crate::serial::run_serial;
use crate::trail::{Lists, Trail, pop_place, push_place};
use crate::waiting::{ask, take_held};
use bs_log::Key;
use bs_tree::{Expr, List, NameId, Stmt, Wait};
use std::alloc::{AllocError, Global};

// One statement, with its number. It answers what is left to do: nothing exactly where it ended.
#[cycle(run)]
pub(crate) fn run_stmt<'p>(
    ground: &Ground,
    stmt: &'p Stmt,
    number: u32,
    trail: &mut Trail,
    state: &mut State,
) -> Result<List<Frame<'p>>, HistoryFault>
    requires fits { IsTrue (is_fit (program_of ground.now) stmt.now) }
    requires stands { StandsAt (program_of ground.now) number (stmt.now ∷ []) }
    requires numbers { number + statements_of stmt.now ≤ 10001 }
    requires ready { IsReady ground.now trail.old state.old }
    ensures { Leaves ground.now (λ mail. (means ground.now stmt.now).does mail number trail.old.path.items (state_of state.old)) trail.old trail.new state.new result }
{
    match stmt {
        Stmt::Serial(acts) => {
            let ended = run_serial(ground, acts, number, trail, state)?;
            end_or_stop(ground.alloc, ended, trail)
        }
        Stmt::When(waits, body) => run_when(
            ground,
            standing(ground, body, number + 1),
            waits.as_slice(),
            number,
            trail,
            state,
        ),
        Stmt::Overlap(body) => run_overlap(
            ground,
            standing(ground, body, number + 1),
            number,
            trail,
            state,
        ),
        Stmt::For(name, first, condition, stepped, next, body) => run_for(
            ground,
            standing(ground, body, number + 1),
            *name,
            first,
            condition,
            *stepped,
            next,
            number,
            trail,
            state,
        ),
        Stmt::While(condition, body) => run_turns(
            ground,
            standing(ground, body, number + 1),
            condition,
            None,
            0,
            number,
            trail,
            state,
        ),
        Stmt::If(condition, body, other) => match test(ground, condition, number, trail, state)? {
            None => end_or_stop(ground.alloc, false, trail),
            Some(true) => run_branch(
                ground,
                standing(ground, body, number + 1),
                0,
                number + 1,
                trail,
                state,
            ),
            Some(false) => match other {
                None => end_or_stop(ground.alloc, true, trail),
                Some(other) => {
                    let number = number_behind(ground, body, number + 1);
                    run_branch(
                        ground,
                        standing(ground, other, number),
                        1,
                        number,
                        trail,
                        state,
                    )
                }
            },
        },
        Stmt::Seq(body) => run_list(
            ground,
            standing(ground, body, number + 1),
            0,
            number + 1,
            trail,
            state,
        ),
    }
}

// A `for`: it sets a variable, and does the turns.
#[cycle(run)]
#[tactic(auto, using(crate::proofs::Meanings::for_begun, crate::proofs::Meanings::for_tested, crate::proofs::Meanings::for_stepped))]
fn run_for<'p>(
    ground: &Ground,
    body: &'p [Stmt],
    name: NameId,
    first: &'p Expr,
    condition: &'p Expr,
    stepped: NameId,
    next: &'p Expr,
    number: u32,
    trail: &mut Trail,
    state: &mut State,
) -> Result<List<Frame<'p>>, HistoryFault>
    requires heads { IsTrue (is_for_fit (program_of ground.now) name first.now condition.now stepped next.now) }
    requires fits { IsTrue (are_fit (program_of ground.now) body.now) }
    requires stands { StandsAt (program_of ground.now) (number + 1) body.now }
    requires numbers { number + 1 + statements_in body.now ≤ 10001 }
    requires ready { IsReady ground.now trail.old state.old }
    ensures { Leaves ground.now (λ mail. assign (λ s. value_of (program_of ground.now) ground.now.this first.now s.cells) (place_of (program_of ground.now) name).from number trail.old.path.items (turns (suc ground.now.limit) (λ s. value_of (program_of ground.now) ground.now.this condition.now s.cells) (assign (λ s. value_of (program_of ground.now) ground.now.this next.now s.cells) (place_of (program_of ground.now) stepped).from) (map (means ground.now) body.now) 0 mail number trail.old.path.items) (state_of state.old)) trail.old trail.new state.new result }
{
    let begun = assign(ground, name, first, number, trail, state)?;
    if !begun {
        return end_or_stop(ground.alloc, false, trail);
    }
    let step = Step {
        name: stepped,
        value: next,
    };
    run_turns(ground, body, condition, Some(step), 0, number, trail, state)
}

// A `when`: it asks its keys, and goes on once its messages are there.
#[cycle(run)]
fn run_when<'p>(
    ground: &Ground,
    body: &'p [Stmt],
    waits: &'p [Wait],
    number: u32,
    trail: &mut Trail,
    state: &mut State,
) -> Result<List<Frame<'p>>, HistoryFault>
    requires fits { IsTrue (are_fit (program_of ground.now) body.now) }
    requires waits { IsTrue (are_waits_fit (program_of ground.now) waits.now) }
    requires stands { StandsAt (program_of ground.now) (number + 1) body.now }
    requires numbers { number + 1 + statements_in body.now ≤ 10001 }
    requires ready { IsReady ground.now trail.old state.old }
    ensures { Leaves ground.now (λ mail. with number trail.old.path.items (keys_of (program_of ground.now) ground.now.this waits.now state.old.env.cells) (λ ks. ask mail number trail.old.path.items ks (λ ms. in_turn (map (means ground.now) body.now) 0 mail (number + 1) trail.old.path.items (took (program_of ground.now) waits.now (state_of state.old) ms)))) trail.old trail.new state.new result }
{
    match ask(ground, waits, number, trail, state)? {
        None => end_or_stop(ground.alloc, false, trail),
        Some(keys) => run_asked(ground, keys, waits, body, number, trail, state),
    }
}

// A `when` whose keys are asked: its body, once its messages are there.
#[cycle(run)]
pub(crate) fn run_asked<'p>(
    ground: &Ground,
    keys: List<Key>,
    waits: &'p [Wait],
    body: &'p [Stmt],
    number: u32,
    trail: &mut Trail,
    state: &mut State,
) -> Result<List<Frame<'p>>, HistoryFault>
    requires fits { IsTrue (are_fit (program_of ground.now) body.now) }
    requires waits { IsTrue (are_waits_fit (program_of ground.now) waits.now) }
    requires stands { StandsAt (program_of ground.now) (number + 1) body.now }
    requires numbers { number + 1 + statements_in body.now ≤ 10001 }
    requires ready { IsReady ground.now trail.old state.old }
    ensures { Leaves ground.now (λ mail. awaited mail number trail.old.path.items keys (λ ms. in_turn (map (means ground.now) body.now) 0 mail (number + 1) trail.old.path.items (took (program_of ground.now) waits.now (state_of state.old) ms))) trail.old trail.new state.new result }
{
    let taken = take_held(ground, waits, keys.as_slice(), number, trail, state)?;
    if taken {
        return run_list(ground, body, 0, number + 1, trail, state);
    }
    let path = trail.places(ground.alloc)?;
    let when = Waiting {
        keys,
        waits,
        body,
        number,
        path,
    };
    Ok(alone(ground.alloc, Frame::When(when))?)
}

// A statement at a place of its list.
#[cycle(run)]
fn run_at<'p>(
    ground: &Ground,
    stmt: &'p Stmt,
    place: u32,
    number: u32,
    trail: &mut Trail,
    state: &mut State,
) -> Result<List<Frame<'p>>, HistoryFault>
    requires fits { IsTrue (is_fit (program_of ground.now) stmt.now) }
    requires stands { StandsAt (program_of ground.now) number (stmt.now ∷ []) }
    requires numbers { number + statements_of stmt.now ≤ 10001 }
    requires ready { IsReady ground.now trail.old state.old }
    ensures { Leaves ground.now (λ mail. (means ground.now stmt.now).does mail number (trail.old.path.items ++ place ∷ []) (state_of state.old)) trail.old trail.new state.new result }
{
    push_place(&mut trail.path, place)?;
    let frames = run_stmt(ground, stmt, number, trail, state)?;
    pop_place(&mut trail.path);
    Ok(frames)
}

// A list of statements at a place: a branch, or a turn.
#[cycle(run)]
fn run_branch<'p>(
    ground: &Ground,
    body: &'p [Stmt],
    place: u32,
    number: u32,
    trail: &mut Trail,
    state: &mut State,
) -> Result<List<Frame<'p>>, HistoryFault>
    requires fits { IsTrue (are_fit (program_of ground.now) body.now) }
    requires stands { StandsAt (program_of ground.now) number body.now }
    requires numbers { number + statements_in body.now ≤ 10001 }
    requires ready { IsReady ground.now trail.old state.old }
    ensures { Leaves ground.now (λ mail. in_turn (map (means ground.now) body.now) 0 mail number (trail.old.path.items ++ place ∷ []) (state_of state.old)) trail.old trail.new state.new result }
{
    push_place(&mut trail.path, place)?;
    let frames = run_list(ground, body, 0, number, trail, state)?;
    pop_place(&mut trail.path);
    Ok(frames)
}

// The statements of a list, one after the other. The first of them has this place and this number.
#[cycle(run)]
pub(crate) fn run_list<'p>(
    ground: &Ground,
    list: &'p [Stmt],
    place: u32,
    number: u32,
    trail: &mut Trail,
    state: &mut State,
) -> Result<List<Frame<'p>>, HistoryFault>
    requires fits { IsTrue (are_fit (program_of ground.now) list.now) }
    requires stands { StandsAt (program_of ground.now) number list.now }
    requires places { place ≤ number }
    requires numbers { number + statements_in list.now ≤ 10001 }
    requires ready { IsReady ground.now trail.old state.old }
    ensures { Leaves ground.now (λ mail. in_turn (map (means ground.now) list.now) place mail number trail.old.path.items (state_of state.old)) trail.old trail.new state.new result }
{
    let mut left = list;
    let mut place = place;
    let mut next = number;
    for stmt in list {
        let behind = number_after(ground, stmt, next);
        let frames = run_at(ground, stmt, place, next, trail, state)?;
        left = behind_first(left);
        let ended = is_done(&frames);
        if !ended {
            let path = trail.places(ground.alloc)?;
            let rest = Listed {
                list: left,
                place: place + 1,
                number: behind,
                path,
            };
            return Ok(put_behind(frames, Frame::List(rest))?);
        }
        next = behind;
        place += 1;
    }
    Ok(List::new(ground.alloc))
}

// An `overlap`. Its parts write besides what is written, since it is done anew where one of them hasn't ended.
#[cycle(run)]
pub(crate) fn run_overlap<'p>(
    ground: &Ground,
    body: &'p [Stmt],
    number: u32,
    trail: &mut Trail,
    state: &mut State,
) -> Result<List<Frame<'p>>, HistoryFault>
    requires fits { IsTrue (are_fit (program_of ground.now) body.now) }
    requires stands { StandsAt (program_of ground.now) (number + 1) body.now }
    requires numbers { number + 1 + statements_in body.now ≤ 10001 }
    requires ready { IsReady ground.now trail.old state.old }
    ensures { Leaves ground.now (λ mail. overlap (map (means ground.now) body.now) mail (number + 1) trail.old.path.items (state_of state.old)) trail.old trail.new state.new result }
{
    let inside = Ground {
        alloc: ground.alloc,
        accepted: ground.accepted,
        mail: ground.mail,
        more: ground.more,
        this: ground.this,
        limit: ground.limit,
        done: ground.done + trail.size,
        room: ground.room - trail.size,
    };
    let mut parts = Trail::new(ground.alloc, trail.places(ground.alloc)?);
    let ended = run_parts(&inside, body, number + 1, &mut parts, state)?;
    let lists = parts.into_lists();
    if ended {
        trail.add(lists)?;
        return Ok(List::new(ground.alloc));
    }
    let path = trail.places(ground.alloc)?;
    trail.shown = lists;
    let overlap = Overlapped { body, number, path };
    Ok(alone(ground.alloc, Frame::Overlap(overlap))?)
}

// The parts of an overlap, each from the same state. Where one hasn't ended, that state stays.
#[cycle(run)]
fn run_parts(
    ground: &Ground,
    body: &[Stmt],
    number: u32,
    trail: &mut Trail,
    state: &mut State,
) -> Result<bool, HistoryFault>
    requires fits { IsTrue (are_fit (program_of ground.now) body.now) }
    requires stands { StandsAt (program_of ground.now) number body.now }
    requires numbers { number + statements_in body.now ≤ 10001 }
    requires ready { IsReady ground.now trail.old state.old }
    ensures runs { Runs ground.now (overlap (map (means ground.now) body.now) (mail_of ground.now) number trail.old.path.items (state_of state.old)) trail.old trail.new state.new result }
    ensures unchanged { IfOk result (λ ended. ended ≡ false → state.new ≡ state.old) }
{
    if body.is_empty() {
        return Ok(true);
    }
    let mut joined = Some(state.bare(ground.alloc)?);
    let mut place: u32 = 0;
    let mut next = number;
    for stmt in body {
        let behind = number_after(ground, stmt, next);
        let mut part = state.copy(ground.alloc)?;
        let ended = run_part(ground, stmt, place, next, trail, &mut part)?;
        joined = join(ground, stmt, joined, part, ended)?;
        next = behind;
        place += 1;
    }
    match joined {
        Some(joined) => {
            *state = joined;
            Ok(true)
        }
        None => Ok(false),
    }
}

// A part of an overlap at a place. What it shows is written too.
#[cycle(run)]
fn run_part(
    ground: &Ground,
    stmt: &Stmt,
    place: u32,
    number: u32,
    trail: &mut Trail,
    state: &mut State,
) -> Result<bool, HistoryFault>
    requires fits { IsTrue (is_fit (program_of ground.now) stmt.now) }
    requires stands { StandsAt (program_of ground.now) number (stmt.now ∷ []) }
    requires numbers { number + statements_of stmt.now ≤ 10001 }
    requires ready { IsReady ground.now trail.old state.old }
    ensures { Runs ground.now ((means ground.now stmt.now).does (mail_of ground.now) number (trail.old.path.items ++ place ∷ []) (state_of state.old)) trail.old trail.new state.new result }
{
    let frames = run_at(ground, stmt, place, number, trail, state)?;
    Ok(close(ground, frames, trail)?)
}

// The turns of a loop from one on, one more than the limit at most.
#[cycle(run)]
pub(crate) fn run_turns<'p>(
    ground: &Ground,
    body: &'p [Stmt],
    condition: &'p Expr,
    step: Option<Step<'p>>,
    first: u32,
    number: u32,
    trail: &mut Trail,
    state: &mut State,
) -> Result<List<Frame<'p>>, HistoryFault>
    requires fits { IsTrue (are_fit (program_of ground.now) body.now) }
    requires known { IsTrue (is_known (program_of ground.now) condition.now) }
    requires step { IsTrue (is_step_fit (program_of ground.now) step) }
    requires stands { StandsAt (program_of ground.now) (number + 1) body.now }
    requires numbers { number + 1 + statements_in body.now ≤ 10001 }
    requires ready { IsReady ground.now trail.old state.old }
    ensures { Leaves ground.now (λ mail. turns (suc ground.now.limit - first) (λ s. value_of (program_of ground.now) ground.now.this condition.now s.cells) (step_of ground.now step.entry) (map (means ground.now) body.now) first mail number trail.old.path.items (state_of state.old)) trail.old trail.new state.new result }
{
    for turn in first..ground.turns() {
        match test(ground, condition, number, trail, state)? {
            None => return end_or_stop(ground.alloc, false, trail),
            Some(false) => return end_or_stop(ground.alloc, true, trail),
            Some(true) => {}
        }
        let frames = run_branch(ground, body, turn, number + 1, trail, state)?;
        let ended = is_done(&frames);
        if !ended {
            let path = trail.places(ground.alloc)?;
            let turns = Looped {
                body,
                condition,
                step,
                turn: turn + 1,
                number,
                path,
            };
            return Ok(put_behind(frames, Frame::Loop(turns))?);
        }
        let stepped = take_step(ground, step, number, trail, state)?;
        if !stepped {
            return end_or_stop(ground.alloc, false, trail);
        }
    }
    let ended = last_test(ground, condition, number, trail, state)?;
    end_or_stop(ground.alloc, ended, trail)
}

// Nothing is left of a run that ended. Of another, which a trap has stopped, nothing can be done.
pub(crate) fn end_or_stop<'p>(
    alloc: Global,
    ended: bool,
    trail: &mut Trail,
) -> Result<List<Frame<'p>>, HistoryFault>
    ensures { (g : PlainGround) (r : Lookup → Run) (old : PlainTrail) (s : RunState) → Ahead g (λ mail. stopped ended s) r old trail.old s → Leaves g r old trail.new s result }
{
    if ended {
        return Ok(List::new(alloc));
    }
    trail.shown = Lists::new(alloc);
    Ok(alone(alloc, Frame::Stuck)?)
}

// Writes what a run shows that hasn't ended, since nothing will come of what is left of it. It answers whether
// it ended.
pub(crate) fn close(
    ground: &Ground,
    frames: List<Frame<'_>>,
    trail: &mut Trail,
) -> Result<bool, AllocError>
    requires { (r : Lookup → Run) × (old : PlainTrail) × (s : RunState) × Leaving ground.now r old trail.old s frames }
    ensures { IfOk result (λ ended. (r : Lookup → Run) (old : PlainTrail) (s : RunState) → Leaving ground.now r old trail.old s frames.entry → Did ground.now (r (mail_of ground.now)) old trail.new s ended) }
{
    if is_done(&frames) {
        return Ok(true);
    }
    trail.settle(ground.alloc)?;
    Ok(false)
}

// The statements of a list behind the first one.
fn behind_first<'a>(list: &'a [Stmt]) -> &'a [Stmt]
    requires { 1 ≤ length list.now }
    ensures { result.now ≡ drop 1 list.now }
{
    &list[1..]
}

ghost use Rattle.std.specs.Prelude.{zero};
ghost use Rattle.bs_semantics.specs.Run.{branch, ends, halts, with};

// The test after the last turn. Where it is true, there is no end.
fn last_test(
    ground: &Ground,
    condition: &Expr,
    number: u32,
    trail: &mut Trail,
    state: &State,
) -> Result<bool, HistoryFault>
    requires known { IsTrue (is_known (program_of ground.now) condition.now) }
    requires ready { IsReady ground.now trail.old state.now }
    ensures { Runs ground.now (with number trail.old.path.items (value_of (program_of ground.now) ground.now.this condition.now state.now.env.cells) (λ v. branch v (λ s. halts []) ends (state_of state.now))) trail.old trail.new state.now result }
{
    match test(ground, condition, number, trail, state)? {
        None => Ok(false),
        Some(true) => Ok(false),
        Some(false) => Ok(true),
    }
}

// The statements of a list, of which it is known where they stand.
fn standing<'a>(_ground: &Ground, body: &'a List<Stmt>, _number: u32) -> &'a [Stmt]
    requires { StandsAt (program_of _ground.now) _number body.now }
    ensures same { result.now ≡ body.now }
    ensures stands { StandsAt (program_of _ground.now) _number result.now }
{
    body.as_slice()
}

// The number that comes behind a statement, of which it is known where it stands.
fn number_after(ground: &Ground, _stmt: &Stmt, number: u32) -> u32
    requires { StandsAt (program_of ground.now) number (_stmt.now ∷ []) }
    ensures value { result ≡ number + statements_of _stmt.now }
    ensures rises { number < result }
    ensures stands { StandsAt (program_of ground.now) number (_stmt.now ∷ []) }
{
    ground.accepted.after(number)
}

// The number that comes behind the statements of a list, the first of which has this number. It asks for
// the number behind each of them, and doesn't go inside.
fn number_behind(ground: &Ground, body: &List<Stmt>, number: u32) -> u32
    requires { StandsAt (program_of ground.now) number body.now }
    ensures { result ≡ number + statements_in body.now }
{
    let mut next = number;
    for _stmt in body.as_slice() {
        next = ground.accepted.after(next);
    }
    next
}
