// When a block is ready.
ghost use Rattle.std.specs.Prelude.{◌≡◌, ◌<◌, IfOk};
ghost use Rattle.bs_model.specs.Ready.{AreBooked, IsBooked, arrival_in, arrivals_in, candidate_in, ends_in};

use crate::book::{Begun, Book};
use bs_log::{Block, Origin};
use bs_machine::Fitted;
use bs_tree::Path;
use std::alloc::{AllocError, Global};

/// The ready tick of a block that can start: one that isn't started, and whose block causes are. It is
/// the greatest of the ends of its block causes and the arrivals of its message causes.
pub(crate) fn candidate(
    alloc: Global,
    machine: &Fitted,
    book: &Book,
    chare: u32,
    block: &Block,
) -> Result<Option<u128>, AllocError>
    requires chare { chare < machine.now.chares }
    requires booked { AreBooked machine.now book.now }
    ensures { IfOk result (λ ready. ready ≡ candidate_in machine.now book.now chare block.now) }
{
    if book.find(alloc, chare, &block.path)?.is_some() {
        return Ok(None);
    }
    let Some(ends) = last_end(alloc, book, chare, block.after.as_slice())? else {
        return Ok(None);
    };
    let arrivals = last_arrival(alloc, machine, book, chare, block.mail.as_slice())?;
    Ok(Some(ends.max(arrivals)))
}

// The greatest end of the blocks at these paths, where all of them were started.
fn last_end(
    alloc: Global,
    book: &Book,
    chare: u32,
    paths: &[Path],
) -> Result<Option<u128>, AllocError>
    ensures { IfOk result (λ end. end ≡ ends_in book.now chare paths.now) }
{
    let mut latest = 0;
    for path in paths {
        match book.find(alloc, chare, path)? {
            Some(begun) => latest = begun.row.end.max(latest),
            None => return Ok(None),
        }
    }
    Ok(Some(latest))
}

// The greatest tick at which one of these messages arrives at a chare.
fn last_arrival(
    alloc: Global,
    machine: &Fitted,
    book: &Book,
    chare: u32,
    origins: &[Origin],
) -> Result<u128, AllocError>
    requires chare { chare < machine.now.chares }
    requires booked { AreBooked machine.now book.now }
    ensures { IfOk result (λ tick. tick ≡ arrivals_in machine.now book.now chare origins.now) }
{
    let mut latest = 0;
    for origin in origins {
        if let Some(begun) = book.find(alloc, origin.chare, &origin.path)? {
            latest = arrival(machine, begun, origin.index, chare).max(latest);
        }
    }
    Ok(latest)
}

// When a send of a started block arrives at a chare: after its offset has passed, and then the latency.
fn arrival(machine: &Fitted, begun: &Begun, index: u32, chare: u32) -> u128
    requires chare { chare < machine.now.chares }
    requires booked { IsBooked machine.now begun.now }
    ensures { result ≡ arrival_in machine.now begun.now index chare }
{
    let at = (index as usize).saturating_sub(1);
    match begun.sends.as_slice().get(at) {
        Some(sent) => {
            let home = machine.home(chare);
            let latency = machine.latency(begun.row.processor, home, sent.bytes);
            begun.row.start + u128::from(machine.duration(sent.offset)) + u128::from(latency)
        }
        None => 0,
    }
}
