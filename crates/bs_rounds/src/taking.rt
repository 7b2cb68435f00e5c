// The histories of the chares whose mail is new.
ghost use Rattle.std.specs.Prelude.{◌≡◌, ◌≤◌, ◌<◌, length};
ghost use Rattle.bs_log.specs.Size.{size_all};
ghost use Rattle.bs_match.specs.Mail.{lookup};
ghost use Rattle.bs_semantics.specs.Run.{history as history_of};
ghost use Rattle.bs_rounds.specs.Posting.{held};
ghost use Rattle.bs_rounds.specs.Taking.{AreShallow, AreTaken, IsShallow, IsTaken, IsTakenOne};

use crate::stop::Stop;
use bs_check::Accepted;
use bs_history::{HistoryFault, history};
use bs_log::{History, size};
use bs_match::Mail;
use std::alloc::Global;

/// Takes the histories of the marked chares anew. The others are those of their mails already. The
/// size of all together is given, and comes back as it is then.
///
/// `Long` comes where the size of a history is above the limit.
pub(crate) fn take(
    alloc: Global,
    accepted: &Accepted,
    limit: u64,
    mails: &[Mail],
    fresh: &[bool],
    histories: &mut Vec<History>,
    size_before: u64,
) -> Result<u64, Stop>
    requires limit { limit ≤ 262144 }
    requires mails { length mails.now ≡ accepted.now.program.chares }
    requires marks { length fresh.now ≡ accepted.now.program.chares }
    requires histories { length histories.old.items ≡ accepted.now.program.chares }
    requires shallow { AreShallow mails.now }
    requires stale { AreTaken accepted.now.program limit mails.now fresh.now histories.old.items }
    requires size { size_before ≡ size_all histories.old.items }
    requires small { size_before ≤ 262144 }
    ensures { IsTaken accepted.now.program limit mails.now result histories.new.items }
{
    let mut together = size_before;
    for chare in 0..accepted.chares() {
        let place = chare as usize;
        if fresh[place] {
            let taken = take_one(alloc, accepted, limit, chare, &mails[place])?;
            together = together - size(&histories[place]) + size(&taken);
            histories[place] = taken;
        }
    }
    Ok(together)
}

// The history of one chare.
fn take_one(
    alloc: Global,
    accepted: &Accepted,
    limit: u64,
    chare: u32,
    mail: &Mail,
) -> Result<History, Stop>
    requires chare { chare < accepted.now.program.chares }
    requires limit { limit ≤ 262144 }
    requires shallow { IsShallow (lookup mail.now) }
    ensures { IsTakenOne limit (history_of accepted.now.program limit chare (lookup mail.now)) result }
{
    // The keys of a mail rise, so that each of its messages is found by its key.
    let _ = mail.len();
    match history(alloc, accepted, chare, mail, limit) {
        Ok(history) => Ok(history),
        Err(HistoryFault::Long) => Err(Stop::Long),
        Err(HistoryFault::Memory) => Err(Stop::Memory),
    }
}
