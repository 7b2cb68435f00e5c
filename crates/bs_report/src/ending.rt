// How a run ends.
ghost use Rattle.std.specs.Prelude.{◌≡◌};
ghost use Rattle.bs_report.specs.End.{end_of};

use bs_log::{End, Outcome};

/// How the run of an outcome ends: trapped where there is a trap, otherwise deadlocked where there
/// is a wait, otherwise settled. It takes no memory.
pub fn end(outcome: &Outcome) -> End
    ensures { result ≡ end_of outcome.now }
{
    if !outcome.traps.as_slice().is_empty() {
        End::Trapped
    } else if !outcome.waits.as_slice().is_empty() {
        End::Deadlock
    } else {
        End::Settled
    }
}
