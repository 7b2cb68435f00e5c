// Whether a chare asks for a key twice.
ghost use Rattle.std.specs.Prelude.{◌≡◌, length};
ghost use Rattle.bs_log.specs.Lists.{Apart};
ghost use Rattle.bs_log.specs.Messages.{one_asked};
ghost use Rattle.bs_rounds.specs.Asking.{AreAskedOnce, IsAskedOnce};

use crate::stop::Stop;
use bs_log::{Asked, History, Key};
use std::alloc::Global;
use std::collections::BTreeMap;

/// Tests the keys that the marked of some chares ask for.
///
/// `Twice` comes where one of these chares asks for a key twice.
pub(crate) fn ask_once(alloc: Global, histories: &[History], fresh: &[bool]) -> Result<(), Stop>
    requires { length fresh.now ≡ length histories.now }
    ensures { AreAskedOnce fresh.now histories.now result }
{
    for (chare, history) in histories.iter().enumerate() {
        if fresh[chare] {
            are_apart(alloc, history.asked.as_slice())?;
        }
    }
    Ok(())
}

// The keys of one chare.
fn are_apart(alloc: Global, asked: &[Asked]) -> Result<(), Stop>
    ensures { IsAskedOnce asked.now result }
{
    let mut keys: BTreeMap<Key, ()> = BTreeMap::new(alloc);
    for one in asked {
        match keys.insert(one.key, ()) {
            Ok(None) => {}
            Ok(Some(())) => return Err(Stop::Twice),
            Err(_) => return Err(Stop::Memory),
        }
    }
    Ok(())
}
