// The blocks that can start, and which of those of a chare is the first.
ghost use Rattle.std.specs.Prelude.{◌≡◌, ◌<◌, IfOk, OnOk, length};
ghost use Rattle.bs_model.specs.Agenda.{IsAgenda};
ghost use Rattle.bs_model.specs.But.{HoldsBut};
ghost use Rattle.bs_model.specs.Ready.{AreBooked, candidate_in};
ghost use Rattle.bs_model.specs.Next.{AreBest, best_at, IsBest, better_of};

use crate::agenda::Agenda;
use crate::book::Book;
use crate::ready::candidate;
use bs_log::{Block, History};
use bs_machine::Fitted;
use std::alloc::{AllocError, Global};
use std::collections::BTreeSet;

/// The block of a chare that starts before its others: its place among the chare's blocks, counted
/// from 0, and its ready tick.
#[derive(Clone, Copy, Debug, PartialEq, Eq, Drop)]
pub(crate) struct Best {
    pub at: usize,
    pub ready: u128,
}

/// Of the blocks of a chare that can start, the first one of least ready tick.
pub(crate) fn best_block(
    alloc: Global,
    machine: &Fitted,
    book: &Book,
    chare: u32,
    blocks: &[Block],
) -> Result<Option<Best>, AllocError>
    requires chare { chare < machine.now.chares }
    requires booked { AreBooked machine.now book.now }
    ensures { IfOk result (IsBest (candidate_in machine.now book.now chare) blocks.now) }
{
    let mut best = None;
    for (at, block) in blocks.iter().enumerate() {
        let ready = candidate(alloc, machine, book, chare, block)?;
        best = better(best, at, ready);
    }
    Ok(best)
}

/// Takes the best block of a chare anew where it may be another one than before.
pub(crate) fn choose(
    alloc: Global,
    machine: &Fitted,
    book: &Book,
    histories: &[History],
    changed: &BTreeSet<u32>,
    agenda: &mut Agenda,
) -> Result<(), AllocError>
    requires chares { length histories.now ≡ machine.now.chares }
    requires agenda { IsAgenda machine.now agenda.old }
    requires booked { AreBooked machine.now book.now }
    requires kept { HoldsBut changed.now.keys (length histories.now) (best_at machine.now book.now histories.now agenda.old.bests.items) }
    ensures bests { OnOk result (AreBest machine.now book.now histories.now agenda.new.bests.items) }
    ensures ends { OnOk result (agenda.new.ends.items ≡ agenda.old.ends.items) }
    ensures agenda { OnOk result (IsAgenda machine.now agenda.new) }
{
    for chare in changed {
        let blocks = histories[*chare as usize].blocks.as_slice();
        let best = best_block(alloc, machine, book, *chare, blocks)?;
        agenda.best_at(machine, *chare, best)?;
    }
    Ok(())
}

// The better one of the best so far and a later block, which is ready at this tick if it can start.
fn better(best: Option<Best>, at: usize, ready: Option<u128>) -> Option<Best>
    ensures { result ≡ better_of best at ready }
{
    let Some(ready) = ready else {
        return best;
    };
    match best {
        Some(other) if other.ready <= ready => best,
        _ => Some(Best { at, ready }),
    }
}
