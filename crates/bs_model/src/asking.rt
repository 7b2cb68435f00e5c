// Whether a chare asks for a key twice.
ghost use Rattle.std.specs.Prelude.{OnOk, IfErr};
ghost use Rattle.bs_log.specs.Lists.{Apart};
ghost use Rattle.bs_log.specs.Messages.{one_asked};
ghost use Rattle.bs_model.specs.Asking.{AskOnce};
ghost use Rattle.bs_model.specs.Stop.{Denies};

use crate::stop::Stop;
use bs_log::{Asked, History, Key};
use std::alloc::Global;
use std::collections::BTreeMap;

/// Tests the keys that chares ask for.
///
/// `Unclean` comes where a chare asks for a key twice.
pub(crate) fn ask_once(alloc: Global, histories: &[History]) -> Result<(), Stop>
    ensures once { OnOk result (AskOnce histories.now) }
    ensures stopped { IfErr result (Denies (AskOnce histories.now)) }
{
    for history in histories {
        are_apart(alloc, history.asked.as_slice())?;
    }
    Ok(())
}

// The keys of one chare.
fn are_apart(alloc: Global, asked: &[Asked]) -> Result<(), Stop>
    ensures apart { OnOk result (Apart one_asked asked.now) }
    ensures stopped { IfErr result (Denies (Apart one_asked asked.now)) }
{
    let mut keys: BTreeMap<Key, ()> = BTreeMap::new(alloc);
    for one in asked {
        match keys.insert(one.key, ()) {
            Ok(None) => {}
            Ok(Some(())) => return Err(Stop::Unclean),
            Err(_) => return Err(Stop::Memory),
        }
    }
    Ok(())
}
