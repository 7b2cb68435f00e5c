// What chares send is put into the mails.
ghost use Rattle.std.specs.Prelude.{◌≡◌, ◌<◌, [], ◌∷◌, length, None, OnOk, IfErr};
ghost use Rattle.bs_match.specs.Mail.{lookup, with_message};
ghost use Rattle.bs_log.specs.Messages.{sends_of, AreFor};
ghost use Rattle.bs_rounds.specs.declared.stop.Stop.TheVariants.{Memory};
ghost use Rattle.bs_rounds.specs.Posting.{IsPosted, flag, held, sent_by};

use crate::origins::same_origin;
use crate::stop::Stop;
use bs_log::{Block, History, Message, copy_message};
use bs_match::{Mail, PutFault};
use std::alloc::Global;

/// Puts what the chares that are marked send into the mails of the chares that it goes to, and marks
/// each chare whose mail is then new. What is held already is left.
///
/// `Twice` comes where a key is held of another message.
pub(crate) fn post_all(
    alloc: Global,
    histories: &[History],
    fresh: &[bool],
    mails: &mut Vec<Mail>,
    news: &mut Vec<bool>,
) -> Result<(), Stop>
    requires counts { length fresh.now ≡ length histories.now }
    requires marks { length news.old.items ≡ length mails.old.items }
    requires targets { AreFor (length mails.old.items) (sent_by fresh.now histories.now) }
    ensures posted { IsPosted (sent_by fresh.now histories.now) (held mails.old.items) (flag news.old.items) result (held mails.new.items) (flag news.new.items) }
    ensures mails { length mails.new.items ≡ length mails.old.items }
    ensures news { length news.new.items ≡ length news.old.items }
{
    for (chare, history) in histories.iter().enumerate() {
        if fresh[chare] {
            post_blocks(alloc, history.blocks.as_slice(), mails, news)?;
        }
    }
    Ok(())
}

// The messages of blocks.
fn post_blocks(
    alloc: Global,
    blocks: &[Block],
    mails: &mut Vec<Mail>,
    news: &mut Vec<bool>,
) -> Result<(), Stop>
    requires marks { length news.old.items ≡ length mails.old.items }
    requires targets { AreFor (length mails.old.items) (sends_of blocks.now) }
    ensures posted { IsPosted (sends_of blocks.now) (held mails.old.items) (flag news.old.items) result (held mails.new.items) (flag news.new.items) }
    ensures mails { length mails.new.items ≡ length mails.old.items }
    ensures news { length news.new.items ≡ length news.old.items }
{
    for block in blocks {
        post_messages(alloc, block.sends.as_slice(), mails, news)?;
    }
    Ok(())
}

fn post_messages(
    alloc: Global,
    messages: &[Message],
    mails: &mut Vec<Mail>,
    news: &mut Vec<bool>,
) -> Result<(), Stop>
    requires marks { length news.old.items ≡ length mails.old.items }
    requires targets { AreFor (length mails.old.items) messages.now }
    ensures posted { IsPosted messages.now (held mails.old.items) (flag news.old.items) result (held mails.new.items) (flag news.new.items) }
    ensures mails { length mails.new.items ≡ length mails.old.items }
    ensures news { length news.new.items ≡ length news.old.items }
{
    for message in messages {
        post(alloc, message, mails, news)?;
    }
    Ok(())
}

// One message.
fn post(
    alloc: Global,
    message: &Message,
    mails: &mut Vec<Mail>,
    news: &mut Vec<bool>,
) -> Result<(), Stop>
    requires marks { length news.old.items ≡ length mails.old.items }
    requires target { message.now.sent.to < length mails.old.items }
    ensures posted { IsPosted (message.now ∷ []) (held mails.old.items) (flag news.old.items) result (held mails.new.items) (flag news.new.items) }
    ensures mails { length mails.new.items ≡ length mails.old.items }
    ensures news { length news.new.items ≡ length news.old.items }
{
    let target = message.sent.to as usize;
    match mails[target].get(message.sent.key) {
        Some(known) => {
            if same_origin(&known.origin, &message.origin) {
                Ok(())
            } else {
                Err(Stop::Twice)
            }
        }
        None => {
            put(alloc, message, &mut mails[target])?;
            news[target] = true;
            Ok(())
        }
    }
}

// A copy of a message is put into a mail that holds none of its key.
fn put(alloc: Global, message: &Message, mail: &mut Mail) -> Result<(), Stop>
    requires { lookup mail.old message.now.sent.key ≡ None }
    ensures put { OnOk result (lookup mail.new ≡ with_message message.now (lookup mail.old)) }
    ensures fault { IfErr result (λ stop. stop ≡ Memory) }
{
    let copy = copy_message(alloc, message)?;
    match mail.put(copy) {
        Ok(()) => Ok(()),
        Err(PutFault::TwoSent(_)) => unreachable!(),
        Err(PutFault::Memory(_)) => Err(Stop::Memory),
    }
}
