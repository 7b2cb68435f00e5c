// The mails of the chares, and the histories under them.
ghost use Rattle.std.specs.Prelude.{◌≡◌, ◌≤◌, ◌<◌, IfOk, IfErr, OnOk, length, slice_get};
ghost use Rattle.std.specs.BTreeSet.{insert_key};
ghost use Rattle.std.specs.Ordering.{nat_cmp};
ghost use Rattle.bs_log.specs.Size.{size, size_all};
ghost use Rattle.bs_log.specs.Messages.{AreFor};
ghost use Rattle.bs_match.specs.Mail.{lookup, with_message};
ghost use Rattle.bs_semantics.specs.Run.{history as history_of};
ghost use Rattle.bs_model.specs.But.{HoldsBut};
ghost use Rattle.bs_model.specs.Mails.{AreDelivered, AreHistories, AreKept, AreShallow, AreShort, CanDeliver, CanPut, IsShallow, IsSize, history_at};
ghost use Rattle.bs_model.specs.Stop.{Denies};

use crate::stop::Stop;
use bs_check::Accepted;
use bs_history::{HistoryFault, history};
use bs_log::{History, Message, size};
use bs_match::{Mail, PutFault};
use std::alloc::{AllocError, Global};
use std::collections::BTreeSet;

/// Puts messages into the mails of the chares that they go to, and gives the chares that got one.
///
/// `Unclean` comes where a chare is sent a key twice, or one that its mail has, or where a message is
/// deeper than the limit.
pub(crate) fn deliver(
    alloc: Global,
    limit: u64,
    mails: &mut [Mail],
    messages: Vec<Message>,
) -> Result<BTreeSet<u32>, Stop>
    requires { AreFor (length mails.old) messages.items }
    ensures delivered { OnOk result (AreDelivered mails.old messages.items mails.new) }
    ensures heard { IfOk result (λ heard. AreKept mails.old heard.keys mails.new) }
    ensures given { OnOk result (CanDeliver limit mails.old messages.items) }
    ensures stopped { IfErr result (Denies (CanDeliver limit mails.old messages.items)) }
{
    let mut heard = BTreeSet::new(alloc);
    let mut rest = messages;
    while let Some(message) = rest.pop() {
        let to = message.sent.to;
        list(&mut heard, to)?;
        put(limit, &mut mails[to as usize], message)?;
    }
    Ok(heard)
}

/// Lists a chare, if it isn't listed.
pub(crate) fn list(listed: &mut BTreeSet<u32>, chare: u32) -> Result<(), AllocError>
    ensures { OnOk result (listed.new.keys ≡ insert_key nat_cmp listed.old.keys chare) }
{
    let _is_new = listed.insert(chare)?;
    Ok(())
}

// Puts a message into a mail.
fn put(limit: u64, mail: &mut Mail, message: Message) -> Result<(), Stop>
    ensures held { OnOk result (lookup mail.new ≡ with_message message (lookup mail.old)) }
    ensures given { OnOk result (CanPut limit message (lookup mail.old)) }
    ensures stopped { IfErr result (Denies (CanPut limit message (lookup mail.old))) }
{
    if u64::from(message.origin.depth) > limit {
        return Err(Stop::Unclean);
    }
    match mail.put(message) {
        Ok(()) => Ok(()),
        Err(PutFault::TwoSent(_)) => Err(Stop::Unclean),
        Err(PutFault::Memory(_)) => Err(Stop::Memory),
    }
}

/// Takes the histories of those chares anew that got a message. The size of all together is given, and
/// comes back as it is then.
///
/// `Unclean` comes where the size of one or of all together is above the limit.
pub(crate) fn renew(
    alloc: Global,
    accepted: &Accepted,
    mails: &[Mail],
    heard: &BTreeSet<u32>,
    limit: u64,
    histories: &mut [History],
    size_before: u64,
) -> Result<u64, Stop>
    requires chares { length mails.now ≡ accepted.now.program.chares }
    requires lengths { length histories.old ≡ length mails.now }
    requires limit { limit ≤ 262144 }
    requires shallow { AreShallow mails.now }
    requires kept { HoldsBut heard.now.keys (length mails.now) (λ c. slice_get histories.old c ≡ history_at accepted.now.program limit mails.now c) }
    requires size { IsSize limit histories.old size_before }
    ensures taken { OnOk result (AreHistories accepted.now.program limit mails.now histories.new) }
    ensures size { IfOk result (IsSize limit histories.new) }
    ensures stopped { IfErr result (Denies (AreShort accepted.now.program limit mails.now)) }
{
    let mut together = size_before;
    for chare in heard {
        let place = *chare as usize;
        let taken = take(alloc, accepted, *chare, &mails[place], limit)?;
        together = together - size(&histories[place]) + size(&taken);
        histories[place] = taken;
    }
    if together > limit {
        return Err(Stop::Unclean);
    }
    Ok(together)
}

/// The history of a chare under a mail.
///
/// `Unclean` comes where its size is above the limit.
pub(crate) fn take(
    alloc: Global,
    accepted: &Accepted,
    chare: u32,
    mail: &Mail,
    limit: u64,
) -> Result<History, Stop>
    requires chare { chare < accepted.now.program.chares }
    requires limit { limit ≤ 262144 }
    requires shallow { IsShallow mail.now }
    ensures taken { IfOk result (λ h. h ≡ history_of accepted.now.program limit chare (lookup mail.now)) }
    ensures short { IfOk result (λ h. size h ≤ limit) }
    ensures stopped { IfErr result (Denies (size (history_of accepted.now.program limit chare (lookup mail.now)) ≤ limit)) }
{
    // The keys of a mail rise, so each of its messages is found by its key.
    let _messages = mail.len();
    match history(alloc, accepted, chare, mail, limit) {
        Ok(history) => Ok(history),
        Err(HistoryFault::Long) => Err(Stop::Unclean),
        Err(HistoryFault::Memory) => Err(Stop::Memory),
    }
}
