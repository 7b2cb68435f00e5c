// What the chares did.
ghost use Rattle.std.specs.Prelude.{◌≡◌, ◌≤◌, [], ◌∷◌, ◌++◌, IfOk, IfErr, OnOk, map};
ghost use Rattle.bs_emul.specs.Emulated.{AreTold, AreTooLong};

use crate::stop::Stop;
use bs_chare::Chare;
use bs_log::{History, size};
use std::alloc::{AllocError, Global};

/// What the chares did. `Unclean` comes where the size of it together is above the limit.
pub(crate) fn histories(
    alloc: Global,
    limit: u64,
    chares: &[Chare<'_>],
) -> Result<Vec<History>, Stop>
    requires { limit ≤ 262144 }
    ensures told { IfOk result (λ told. AreTold limit (map (λ c. c.history) chares.now) told.items) }
    ensures stopped { IfErr result (AreTooLong limit (map (λ c. c.history) chares.now)) }
{
    let mut histories = Vec::new(alloc);
    let mut together = 0;
    for chare in chares {
        let history = chare.history(alloc)?;
        together += size(&history);
        if together > limit {
            return Err(Stop::Unclean);
        }
        push(&mut histories, history)?;
    }
    Ok(histories)
}

fn push(histories: &mut Vec<History>, history: History) -> Result<(), AllocError>
    ensures { OnOk result (histories.new.items ≡ histories.old.items ++ history ∷ []) }
{
    histories.push(history)?;
    Ok(())
}
