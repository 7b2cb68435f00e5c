// The history of a chare under a mail.
ghost use Rattle.std.specs.Prelude.{◌≤◌, ◌<◌, All};
ghost use Rattle.bs_match.specs.Mail.{lookup};
ghost use Rattle.bs_semantics.specs.Run.{history as history_of};
ghost use Rattle.bs_history.specs.History.{IsHistory};

use crate::causes::Causes;
use crate::fault::HistoryFault;
use crate::ground::{Ground, State};
use crate::statements::{close, run_list};
use crate::trail::Trail;
use bs_block::Env;
use bs_check::Accepted;
use bs_check::laws::accepted_programs;
use bs_log::History;
use bs_match::Mail;
use std::alloc::Global;

/// The history of a chare of an accepted program under a mail, whose messages have depths of at most
/// 262,144. The limit is from 1 to 262,144.
///
/// `Long` comes exactly where the size of the history is above the limit, but for want of memory.
pub fn history<'p, 'm>(
    alloc: Global,
    accepted: &'p Accepted,
    chare: u32,
    mail: &'m Mail,
    limit: u64,
) -> Result<History, HistoryFault>
    requires chare { chare < accepted.now.program.chares }
    requires shallow { All (λ m. m.origin.depth ≤ 262144) mail.now }
    requires limit { limit ≤ 262144 }
    ensures { IsHistory limit (history_of accepted.now.program limit chare (lookup mail.now)) result }
{
    let ground = Ground {
        alloc,
        accepted,
        mail,
        more: None,
        this: chare,
        limit,
        done: 0,
        room: limit,
    };
    let mut trail = Trail::new(alloc, Vec::new(alloc));
    let mut state = State {
        env: Env::new(alloc, accepted, chare)?,
        causes: Causes::new(alloc),
    };
    // Its names are declared as what they are used for.
    accepted_programs();
    let body = accepted.program().body.as_slice();
    let frames = run_list(&ground, body, 0, 1, &mut trail, &mut state)?;
    let ended = close(&ground, frames, &mut trail)?;
    let Trail {
        blocks,
        asked,
        traps,
        waits,
        ..
    } = trail;
    Ok(History {
        blocks,
        asked,
        waits,
        traps,
        ended,
    })
}
