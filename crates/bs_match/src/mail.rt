// The mail of a chare.
ghost use Rattle.std.specs.Prelude.{◌≡◌, ◌+◌, [], length, IfOk, IfErr, OnOk, OnErr};
ghost use Rattle.std.specs.Option.{option_copied};
ghost use Rattle.bs_match.specs.Mail.{HasRisingKeys, lookup, with_message};
ghost use Rattle.bs_match.specs.Fault.{IsFault};

use bs_log::{Key, Message, copy_message};
use std::alloc::{AllocError, AllocFailed, Global};
use std::collections::BTreeMap;
use std::marker::Model;

/// The messages that came to a chare, at most one of each key. Contracts see the list of them, in the
/// order of their keys.
#[derive(Drop)]
pub struct Mail {
    messages: BTreeMap<Key, Message>,
}

/// Why a message isn't put into a mail: a message of its key is held, or memory is wanting. Both hand
/// the message back.
#[derive(Drop)]
pub enum PutFault {
    TwoSent(Message),
    Memory(Message),
}

impl Model for Mail {
    ghost use Rattle.std.specs.Prelude.{List};
    ghost use Rattle.std.specs.BTreeMap.{values};
    ghost use Rattle.bs_log.specs.declared.history.Message.{Message};
    ghost use Rattle.bs_match.specs.Keyed.{AreKeyed};

    ghost Value = { List Message };

    ghost view = { λ mail. values mail.messages };

    ghost invariant = { λ mail. AreKeyed mail.messages.entries };
}

impl Mail {
    /// A mail without messages. It takes no memory until one is put.
    pub fn new(alloc: Global) -> Mail
        ensures { result ≡ [] }
    {
        Mail {
            messages: BTreeMap::new(alloc),
        }
    }

    /// How many messages are held. Their keys rise, so no two are of one key.
    pub fn len(&self) -> usize
        ensures count { result ≡ length self.now }
        ensures rising { HasRisingKeys self.now }
    {
        self.messages.len()
    }

    /// The message of a key, or `None` exactly where none of it is held. It takes no memory.
    pub fn get(&self, key: Key) -> Option<&Message>
        ensures { option_copied result ≡ lookup self.now key }
    {
        self.messages.get(&key)
    }

    /// Puts a message. It is refused by `TwoSent` exactly where a message of its key is held, which
    /// stays, and by `Memory` where none is and memory is wanting. The mail is then as it was.
    pub fn put(&mut self, message: Message) -> Result<(), PutFault>
        ensures free { OnOk result (lookup self.old message.sent.key ≡ None) }
        ensures held { OnOk result (lookup self.new ≡ with_message message (lookup self.old)) }
        ensures count { OnOk result (length self.new ≡ length self.old + 1) }
        ensures fault { IfErr result (λ fault. IsFault message self.old fault) }
        ensures unchanged { OnErr result (self.new ≡ self.old) }
    {
        let key = message.sent.key;
        if self.messages.contains_key(&key) {
            return Err(PutFault::TwoSent(message));
        }
        match self.messages.insert(key, message) {
            Ok(_) => Ok(()),
            Err(
                AllocFailed {
                    value: (_, message),
                },
            ) => Err(PutFault::Memory(message)),
        }
    }

    /// A mail with the same messages.
    pub fn copy(&self, alloc: Global) -> Result<Mail, AllocError>
        ensures { IfOk result (λ mail. mail ≡ self.now) }
    {
        let mut messages = BTreeMap::new(alloc);
        for (key, message) in &self.messages {
            let message = copy_message(alloc, message)?;
            messages.insert(*key, message)?;
        }
        Ok(Mail { messages })
    }
}
