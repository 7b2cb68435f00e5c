// What a run that hasn't ended does next.
ghost use Rattle.std.specs.Prelude.{◌≡◌, ◌∷◌, ◌++◌, [], IfOk};

use crate::control::Step;
use bs_log::Key;
use bs_tree::{Expr, List, Stmt, Wait};
use std::alloc::{AllocError, Global};

// One thing that a run does next, once it can.
#[derive(Drop)]
pub(crate) enum Frame<'p> {
    // Nothing: a trap was written.
    Stuck,
    // The body of a `when`, once its messages are there.
    When(Waiting<'p>),
    // The statements of a list from a place on.
    List(Listed<'p>),
    // The turns of a loop from one on, after what is done between two turns.
    Loop(Looped<'p>),
    // An `overlap`, anew.
    Overlap(Overlapped<'p>),
}

// A `when` whose keys are asked.
#[derive(Drop)]
pub(crate) struct Waiting<'p> {
    pub keys: List<Key>,
    pub waits: &'p [Wait],
    pub body: &'p [Stmt],
    pub number: u32,
    pub path: Vec<u32>,
}

// The statements of a list that are left, with the place and the number of the first of them.
#[derive(Drop)]
pub(crate) struct Listed<'p> {
    pub list: &'p [Stmt],
    pub place: u32,
    pub number: u32,
    pub path: Vec<u32>,
}

// A loop, with the number of its next turn, counted from 0.
#[derive(Drop)]
pub(crate) struct Looped<'p> {
    pub body: &'p [Stmt],
    pub condition: &'p Expr,
    pub step: Option<Step<'p>>,
    pub turn: u32,
    pub number: u32,
    pub path: Vec<u32>,
}

// An `overlap`, with its number.
#[derive(Drop)]
pub(crate) struct Overlapped<'p> {
    pub body: &'p [Stmt],
    pub number: u32,
    pub path: Vec<u32>,
}

ghost use Rattle.bs_history.specs.Frames.{is_done as is_done_list};

// Whether nothing is left to do.
pub(crate) fn is_done(frames: &List<Frame<'_>>) -> bool
    ensures { result ≡ is_done_list frames.now }
{
    frames.as_slice().is_empty()
}

// One thing more comes behind the others.
pub(crate) fn put_behind<'p>(
    frames: List<Frame<'p>>,
    frame: Frame<'p>,
) -> Result<List<Frame<'p>>, AllocError>
    ensures { IfOk result (λ all. all ≡ frames.entry ++ frame.entry ∷ []) }
{
    let mut all = frames;
    all.push(frame)?;
    Ok(all)
}

// One thing alone.
pub(crate) fn alone<'p>(alloc: Global, frame: Frame<'p>) -> Result<List<Frame<'p>>, AllocError>
    ensures { IfOk result (λ all. all ≡ frame.entry ∷ []) }
{
    put_behind(List::new(alloc), frame)
}
