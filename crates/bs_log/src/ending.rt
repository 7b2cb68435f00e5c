// How the run of a log ends.
ghost use Rattle.std.specs.Prelude.{◌≡◌};
ghost use Rattle.bs_log.specs.End.{end_of};

use crate::log::Log;
use crate::outcome::End;

/// How the run of a log ends: trapped where there is a trap, otherwise deadlocked where there is a
/// wait, otherwise settled. It takes no memory.
pub fn end(log: &Log) -> End
    ensures { result ≡ end_of log.now }
{
    if !log.traps.as_slice().is_empty() {
        End::Trapped
    } else if !log.waits.as_slice().is_empty() {
        End::Deadlock
    } else {
        End::Settled
    }
}
