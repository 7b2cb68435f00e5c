// What `sweep` and `tune` tell of several points.
ghost use Rattle.std.specs.Prelude.{◌≡◌};
ghost use Rattle.bs_top.specs.Seen.{said_of};
ghost use Rattle.bs_top.specs.commands.Points.{points_said};

use crate::reply::{Ending, Reply, Target};
use bs_log::{Log, end};

/// The reply of a text of points, with the end of the run of their log.
pub(crate) fn points_reply(log: &Log, text: Vec<u8>) -> Reply
    ensures { said_of result ≡ points_said log.now text.items }
{
    Reply {
        ending: Ending::Run(end(log)),
        note: None,
        target: Target::Output,
        text,
    }
}
