// The rounds of a program, until one decides.
ghost use Rattle.std.specs.Prelude.{◌≡◌, ◌≤◌, length, IfOk, IsNone};
ghost use Rattle.bs_log.specs.Size.{size_all};
ghost use Rattle.bs_log.specs.Sound.{Once};
ghost use Rattle.bs_rounds.specs.Answer.{IsAnswer};
ghost use Rattle.bs_rounds.specs.State.{IsAtRound};
ghost use Rattle.bs_rounds.specs.Deciding.{IsDecided, NamesTwice};

use crate::answer::Verdict;
use crate::naming::ambiguous;
use crate::state::Chares;
use crate::stop::Stop;
use bs_check::Accepted;
use bs_log::{History, collect};
use std::alloc::{AllocError, Global};

/// The verdict on a program at a limit of sizes from 1 to 262,144. Only memory can be wanting.
pub fn verdict(alloc: Global, accepted: &Accepted, limit: u64) -> Result<Verdict, AllocError>
    requires { (1 ≤ limit) × (limit ≤ 262144) }
    ensures { IfOk result (λ verdict. IsAnswer accepted.now.program limit verdict) }
{
    let mut chares = Chares::start(alloc, accepted, limit)?;
    // Each round that doesn't decide sends a message more, and no more than the limit are sent.
    for _ in 0..limit + 1 {
        if let Some(verdict) = decide(alloc, accepted, limit, &mut chares)? {
            return Ok(verdict);
        }
    }
    unreachable!()
}

// One round, and the verdict if it decides.
fn decide(
    alloc: Global,
    accepted: &Accepted,
    limit: u64,
    chares: &mut Chares,
) -> Result<Option<Verdict>, AllocError>
    requires limit { limit ≤ 262144 }
    requires rounds { chares.old.rounds ≤ limit }
    requires state { IsAtRound accepted.now.program limit chares.old.rounds chares.old.mails.items chares.old.fresh.items chares.old.histories.items }
    requires size { chares.old.size ≡ size_all chares.old.histories.items }
    ensures { IfOk result (λ verdict. IsDecided accepted.now.program limit verdict chares.old.rounds chares.new.rounds chares.new.mails.items chares.new.fresh.items chares.new.histories.items × (IsNone verdict → chares.new.size ≡ size_all chares.new.histories.items)) }
{
    match chares.take_round(alloc, accepted, limit) {
        Ok(()) => {}
        Err(Stop::Long) => return Ok(Some(Verdict::TooLong)),
        Err(Stop::Twice) => return Ok(Some(named(alloc, chares.histories.as_slice())?)),
        Err(Stop::Memory) => return Err(AllocError),
    }
    if chares.fresh.contains(&true) {
        chares.rounds += 1;
        return Ok(None);
    }
    let entries = accepted.program().entries.as_slice().len() as u32;
    let log = collect(alloc, chares.histories.as_slice(), entries)?;
    Ok(Some(Verdict::Clean(log)))
}

// The names of the key that is sent or asked twice.
fn named(alloc: Global, histories: &[History]) -> Result<Verdict, AllocError>
    requires few { length histories.now ≤ 65536 }
    requires twice { Once histories.now → ⊥ }
    ensures { IfOk result (λ verdict. NamesTwice histories.now verdict) }
{
    match ambiguous(alloc, histories)? {
        Some(twice) => Ok(Verdict::Ambiguous(twice)),
        None => unreachable!(),
    }
}
