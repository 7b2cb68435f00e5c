// Where messages go to.
ghost use Rattle.std.specs.Prelude.{◌≡◌};
ghost use Rattle.bs_logcheck.specs.Places.{goal_of, spot_of};

use bs_log::{Key, Sent, WaitRow};

/// A chare and a key there. Places are ordered by chare, and then by key.
#[derive(Clone, Copy, PartialEq, Eq, PartialOrd, Ord, Drop)]
pub(crate) struct Place {
    chare: u32,
    key: Key,
}

/// Where a message goes to.
pub(crate) fn goal_of(sent: Sent) -> Place
    ensures { result ≡ goal_of sent }
{
    Place {
        chare: sent.to,
        key: sent.key,
    }
}

/// Where a wait waits for one.
pub(crate) fn spot_of(wait: WaitRow) -> Place
    ensures { result ≡ spot_of wait }
{
    Place {
        chare: wait.chare,
        key: wait.key,
    }
}
