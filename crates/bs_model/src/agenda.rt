// What each processor starts next, and which of them starts first.
ghost use Rattle.std.specs.Prelude.{◌≡◌, ◌<◌, ℕ, IfOk, OnOk, Option, length, slice_index_or, slice_set};
ghost use Rattle.bs_machine.specs.declared.fitted.Fitted.{Fitted as Machine};
ghost use Rattle.bs_model.specs.Agenda.{AreIdle, AreNone, IsAgenda, ready_of, start_of};
ghost use Rattle.bs_model.specs.Line.{IsFirst, IsLine, first_of};
ghost use Rattle.bs_model.specs.Next.{IsLeast};

use crate::candidates::Best;
use crate::line::Line;
use bs_machine::Fitted;
use std::alloc::{AllocError, Global};

/// The block that starts next, with its chare, the chare's processor, and its start.
#[derive(Clone, Copy, Debug, PartialEq, Eq, Drop)]
pub(crate) struct Next {
    pub chare: u32,
    pub processor: u32,
    pub best: Best,
    pub start: u128,
}

/// The last end of each processor, and the best block of each chare, if it has one.
///
/// The chares of a processor that have one wait in its line, by the ready tick. The processors at which
/// some chare waits have their turns by the start of the first of the line. So the next block is found,
/// and a chare gets another best block, in a time that is logarithmic.
#[derive(Drop)]
pub(crate) struct Agenda {
    pub ends: Vec<u128>,
    pub bests: Vec<Option<Best>>,
    lines: Vec<Line>,
    turns: Line,
}

impl Agenda {
    ghost use Rattle.std.specs.Prelude.{◌≡◌, ◌<◌, ℕ, IfOk, OnOk, Option, length, slice_index_or, slice_set};
    ghost use Rattle.bs_machine.specs.declared.fitted.Fitted.{Fitted as Machine};
    ghost use Rattle.bs_model.specs.Agenda.{AreIdle, AreNone, IsAgenda, ready_of, start_of};
    ghost use Rattle.bs_model.specs.Line.{IsFirst, IsLine, first_of};
    ghost use Rattle.bs_model.specs.Next.{IsLeast};

    /// An agenda of free processors, with no block for any chare.
    pub(crate) fn new(alloc: Global, machine: &Fitted, chares: u32) -> Result<Agenda, AllocError>
        requires { chares ≡ machine.now.chares }
        ensures agenda { IfOk result (IsAgenda machine.now) }
        ensures free { IfOk result (λ a. (q : ℕ) → slice_index_or a.ends.items q 0 ≡ 0) }
    {
        let processors = machine.processors() as usize;
        Ok(Agenda {
            ends: vec![in alloc; 0; processors]?,
            bests: no_bests(alloc, chares as usize)?,
            lines: empty_lines(alloc, processors)?,
            turns: Line::new(alloc),
        })
    }

    /// The block that starts next, if one can: that of least (start, processor, ready tick, chare).
    pub(crate) fn next(&self) -> Option<Next>
        requires { (m : Machine) × IsAgenda m self.now }
        ensures { (m : Machine) → IsAgenda m self.now → IsLeast m self.now.ends.items self.now.bests.items result }
    {
        let (start, processor) = self.turns.first()?;
        let (_, chare) = self.lines[processor as usize].first()?;
        let best = self.bests[chare as usize]?;
        Some(Next {
            chare,
            processor,
            best,
            start,
        })
    }

    /// Puts the last end of a processor.
    pub(crate) fn end_at(&mut self, processor: u32, end: u128) -> Result<(), AllocError>
        requires processor { processor < length self.old.ends.items }
        requires agenda { (m : Machine) × IsAgenda m self.old }
        ensures ends { OnOk result (self.new.ends.items ≡ slice_set self.old.ends.items processor end) }
        ensures bests { OnOk result (self.new.bests.items ≡ self.old.bests.items) }
        ensures agenda { OnOk result ((m : Machine) → IsAgenda m self.old → IsAgenda m self.new) }
    {
        let place = processor as usize;
        let before = start(&self.lines[place], self.ends[place]);
        let after = start(&self.lines[place], end);
        self.ends[place] = end;
        self.turns.change(processor, before, after)
    }

    /// Puts the best block of a chare.
    pub(crate) fn best_at(
        &mut self,
        machine: &Fitted,
        chare: u32,
        best: Option<Best>,
    ) -> Result<(), AllocError>
        requires chare { chare < machine.now.chares }
        requires agenda { IsAgenda machine.now self.old }
        ensures bests { OnOk result (self.new.bests.items ≡ slice_set self.old.bests.items chare best) }
        ensures ends { OnOk result (self.new.ends.items ≡ self.old.ends.items) }
        ensures agenda { OnOk result (IsAgenda machine.now self.new) }
    {
        let processor = machine.home(chare);
        let place = processor as usize;
        let end = self.ends[place];
        let before = start(&self.lines[place], end);
        let old = ready(self.bests[chare as usize]);
        self.bests[chare as usize] = best;
        self.lines[place].change(chare, old, ready(best))?;
        let after = start(&self.lines[place], end);
        self.turns.change(processor, before, after)
    }
}

// When the first of a line starts, after the last end of its processor.
fn start(line: &Line, end: u128) -> Option<u128>
    ensures value { result ≡ start_of end (first_of line.now) }
    ensures first { (f : ℕ → Option ℕ) → IsLine f line.now → IsFirst f (first_of line.now) }
{
    let (ready, _) = line.first()?;
    Some(ready.max(end))
}

// The ready tick of a best block.
fn ready(best: Option<Best>) -> Option<u128>
    ensures { result ≡ ready_of best }
{
    Some(best?.ready)
}

fn no_bests(alloc: Global, chares: usize) -> Result<Vec<Option<Best>>, AllocError>
    ensures { IfOk result (λ bests. AreNone chares bests.items) }
{
    let mut bests = Vec::new(alloc);
    for _chare in 0..chares {
        bests.push(None)?;
    }
    Ok(bests)
}

fn empty_lines(alloc: Global, processors: usize) -> Result<Vec<Line>, AllocError>
    ensures { IfOk result (λ lines. AreIdle processors lines.items) }
{
    let mut lines = Vec::new(alloc);
    for _processor in 0..processors {
        lines.push(Line::new(alloc))?;
    }
    Ok(lines)
}
