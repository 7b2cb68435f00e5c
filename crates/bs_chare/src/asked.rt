// Whether a chare asks for a key twice, and who asks for it.
ghost use Rattle.std.specs.Prelude.{◌≡◌, ◌≤◌, ◌∷◌, length, Some, IfOk};
ghost use Rattle.bs_chare.specs.Asked.{AreAskedOnce, IsNamed, IsLeastTwice, askers, times, lesser};

use crate::copies::copy_path;
use crate::fault::ChareFault;
use bs_log::{Asked, Key};
use std::alloc::{AllocError, Global};
use std::collections::BTreeMap;

/// Tests the keys that a chare asks for.
///
/// `TwoAsked` comes exactly where one is asked for twice, but for want of memory.
pub(crate) fn ask_once(alloc: Global, asked: &[Asked]) -> Result<(), ChareFault>
    ensures { AreAskedOnce asked.now result }
{
    match least_twice(alloc, asked)? {
        None => Ok(()),
        Some(key) => Err(two_asked(alloc, asked, key)?),
    }
}

// The least key that is asked for twice.
fn least_twice(alloc: Global, asked: &[Asked]) -> Result<Option<Key>, AllocError>
    ensures { IfOk result (λ least. IsLeastTwice (times asked.now) least) }
{
    let mut keys: BTreeMap<Key, ()> = BTreeMap::new(alloc);
    let mut least = None;
    for one in asked {
        match keys.insert(one.key, ())? {
            None => {}
            Some(()) => least = Some(lesser(least, one.key)),
        }
    }
    Ok(least)
}

fn lesser(least: Option<Key>, key: Key) -> Key
    ensures { result ≡ lesser least key }
{
    match least {
        Some(least) if least < key => least,
        _ => key,
    }
}

// The first two that ask for a key, by their paths.
fn two_asked(alloc: Global, asked: &[Asked], key: Key) -> Result<ChareFault, AllocError>
    requires { 2 ≤ times asked.now key }
    ensures { IfOk result (λ fault. IsNamed asked.now key fault) }
{
    let (first, rest) = next_asker(asked, key);
    let (second, _) = next_asker(rest, key);
    let first = copy_path(alloc, &first.path)?;
    let second = copy_path(alloc, &second.path)?;
    Ok(ChareFault::TwoAsked(key, first, second))
}

// The first that asks for a key, and what comes behind it.
fn next_asker(asked: &[Asked], key: Key) -> (&Asked, &[Asked])
    requires { 1 ≤ times asked.now key }
    ensures { askers key asked.now ≡ result.0.now ∷ askers key result.1.now }
{
    for (place, one) in asked.iter().enumerate() {
        if one.key == key {
            return (one, &asked[place + 1..]);
        }
    }
    unreachable!()
}
