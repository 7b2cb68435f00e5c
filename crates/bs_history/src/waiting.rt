// What a `when` does before its body.
ghost use Rattle.std.specs.Prelude.{◌≡◌, ◌≤◌, All, IfOk, IsTrue, List as PlainList, option_map};
ghost use Rattle.bs_check.specs.Known.{all_true, is_scalar};
ghost use Rattle.bs_semantics.specs.Run.{after_asking, all_asked, all_waits, held, keys_of, missing, take_args, take_mail, with};
ghost use Rattle.bs_block.specs.Env.{MadeFor};
ghost use Rattle.bs_check.specs.Fits.{are_waits_fit};
ghost use Rattle.bs_history.specs.Ground.{Finds, IsReady, mail_of, program_of};
ghost use Rattle.bs_history.specs.Trail.{IsWithin, Writes};
ghost use Rattle.bs_history.specs.Waiting.{AreHeld, AreKeys, TakesHeld, all_keys_asked};
ghost use Rattle.bs_log.specs.declared.history.Key.{Key as AskedKey};

use crate::control::scalar_cell;
use crate::fault::HistoryFault;
use crate::ground::{Ground, State};
use crate::trail::{Lists, Trail};
use bs_block::{BlockFault, Env, eval};
use bs_check::{Accepted, Kind};
use bs_log::{Key, Message, WaitAt, copy_message};
use bs_tree::{List, NameId, Wait};
use std::alloc::{AllocError, Global};

// Asks all keys of a `when`, or writes the trap of one. It answers the keys.
pub(crate) fn ask(
    ground: &Ground,
    waits: &[Wait],
    number: u32,
    trail: &mut Trail,
    state: &State,
) -> Result<Option<List<Key>>, HistoryFault>
    requires fits { IsTrue (are_waits_fit (program_of ground.now) waits.now) }
    requires ready { IsReady ground.now trail.old state.now }
    ensures { Finds ground.now (PlainList AskedKey) (λ next. with number trail.old.path.items (keys_of (program_of ground.now) ground.now.this waits.now state.now.env.cells) (λ ks. after_asking (all_asked number trail.old.path.items ks) (next ks))) trail.old trail.new state.now result }
{
    match keys(ground, waits, &state.env) {
        Ok(keys) => {
            write_asked(ground, keys.as_slice(), number, trail)?;
            Ok(Some(keys))
        }
        Err(BlockFault::Trap(kind)) => {
            trail.trap(ground.alloc, number, kind, ground.room)?;
            Ok(None)
        }
        Err(BlockFault::Memory) => Err(HistoryFault::Memory),
    }
}

// Takes the messages of all keys, where they are there. Otherwise it shows a wait for each of the others.
pub(crate) fn take_held(
    ground: &Ground,
    waits: &[Wait],
    keys: &[Key],
    number: u32,
    trail: &mut Trail,
    state: &mut State,
) -> Result<bool, AllocError>
    requires fits { IsTrue (are_waits_fit (program_of ground.now) waits.now) }
    requires ready { IsReady ground.now trail.old state.old }
    ensures { IfOk result (TakesHeld ground.now waits.now keys.now number trail.old trail.new state.old state.new) }
{
    match held_messages(ground, keys)? {
        None => {
            let mut shown = Lists::new(ground.alloc);
            shown.waits = missing_waits(ground, keys, number, trail)?;
            trail.shown = shown;
            Ok(false)
        }
        Some(messages) => {
            take_arguments(ground.accepted, waits, messages.as_slice(), &mut state.env);
            state
                .causes
                .add_messages(ground.alloc, messages.into_vec())?;
            Ok(true)
        }
    }
}

// The keys of the waits, from left to right.
fn keys(ground: &Ground, waits: &[Wait], env: &Env) -> Result<List<Key>, BlockFault>
    requires fits { IsTrue (are_waits_fit (program_of ground.now) waits.now) }
    requires made { MadeFor (program_of ground.now) env.now }
    ensures { AreKeys (keys_of (program_of ground.now) env.now.this waits.now env.now.cells) result }
{
    let mut keys = List::new(ground.alloc);
    for wait in waits {
        let reference = eval(ground.accepted, &wait.reference, env)?;
        let entry = entry_number(ground.accepted, wait.entry);
        keys.push(Key { entry, reference })?;
    }
    Ok(keys)
}

ghost use Rattle.bs_check.specs.Known.{is_entry};
ghost use Rattle.bs_semantics.specs.Layout.{entry_of};

fn entry_number(accepted: &Accepted, name: NameId) -> u32
    requires { IsTrue (is_entry accepted.now.program name) }
    ensures { result ≡ entry_of accepted.now.program name }
{
    match accepted.kind(name) {
        Kind::Entry(number, _) => number,
        _ => unreachable!(),
    }
}

fn write_asked(
    ground: &Ground,
    keys: &[Key],
    number: u32,
    trail: &mut Trail,
) -> Result<(), HistoryFault>
    requires { IsWithin ground.now.room trail.old }
    ensures { Writes ground.now.room (all_keys_asked number trail.old.path.items keys.now) trail.old trail.new result }
{
    for key in keys {
        trail.ask(ground.alloc, number, *key, ground.room)?;
    }
    Ok(())
}

// A wait for each key whose message isn't there.
fn missing_waits(
    ground: &Ground,
    keys: &[Key],
    number: u32,
    trail: &Trail,
) -> Result<List<WaitAt>, AllocError>
    ensures { IfOk result (λ waits. waits ≡ all_waits number trail.now.path.items (missing (mail_of ground.now) keys.now)) }
{
    let mut waits = List::new(ground.alloc);
    for key in keys {
        if ground.find(*key).is_none() {
            let path = trail.here(ground.alloc)?;
            waits.push(WaitAt {
                path,
                stmt: number,
                key: *key,
            })?;
        }
    }
    Ok(waits)
}

// Copies of the messages of all keys, or `None` where one isn't there.
fn held_messages(ground: &Ground, keys: &[Key]) -> Result<Option<List<Message>>, AllocError>
    ensures { IfOk result (λ messages. AreHeld messages (held (mail_of ground.now) keys.now)) }
{
    let mut messages = List::new(ground.alloc);
    for key in keys {
        match ground.find(*key) {
            Some(message) => messages.push(copy_message(ground.alloc, message)?)?,
            None => return Ok(None),
        }
    }
    Ok(Some(messages))
}

// Gives the arguments of each message to the parameters of its wait.
fn take_arguments(accepted: &Accepted, waits: &[Wait], messages: &[Message], env: &mut Env)
    requires fits { IsTrue (are_waits_fit accepted.now.program waits.now) }
    requires made { MadeFor accepted.now.program env.old }
    ensures taken { env.new ≡ record env.old { cells = take_mail accepted.now.program waits.now messages.now env.old.cells } }
    ensures made { MadeFor accepted.now.program env.new }
{
    for at in 0..waits.len().min(messages.len()) {
        let wait = &waits[at];
        let message = &messages[at];
        take_values(
            accepted,
            wait.params.as_slice(),
            message.args.as_slice(),
            env,
        );
    }
}

// Gives each parameter its argument, from left to right.
fn take_values(accepted: &Accepted, params: &[NameId], args: &[i64], env: &mut Env)
    requires fits { IsTrue (all_true (map (is_scalar accepted.now.program) params.now)) }
    requires made { MadeFor accepted.now.program env.old }
    ensures taken { env.new ≡ record env.old { cells = take_args accepted.now.program params.now args.now env.old.cells } }
    ensures made { MadeFor accepted.now.program env.new }
{
    for at in 0..params.len().min(args.len()) {
        env.set(scalar_cell(accepted, params[at]), args[at]);
    }
}

ghost use Rattle.std.specs.Prelude.{map};
