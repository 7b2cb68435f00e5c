// A chare that takes its messages one after the other.
ghost use Rattle.std.specs.Prelude.{◌≡◌, ◌≤◌, ◌<◌, ℕ, Bool, true, false, [], None, IfOk, IfErr, OnOk, OnErr};
ghost use Rattle.std.specs.Coded.{Coded-set};
ghost use Rattle.bs_log.specs.Size.{size};
ghost use Rattle.bs_log.specs.Lists.{Apart};
ghost use Rattle.bs_log.specs.Messages.{one_asked, sends_of};
ghost use Rattle.bs_log.specs.Histories.{no_history};
ghost use Rattle.bs_match.specs.Mail.{lookup, with_message};
ghost use Rattle.bs_chare.specs.Asked.{apart_prop};
ghost use Rattle.bs_chare.specs.Chare.{HoldsProper, IsProper, told};
ghost use Rattle.bs_chare.specs.News.{AreNews};

use crate::asked::ask_once;
use crate::copies::copy_history;
use crate::fault::ChareFault;
use crate::news::news;
use bs_check::Accepted;
use bs_history::{HistoryFault, history};
use bs_log::{History, Message};
use bs_match::{Mail, PutFault};
use bs_tree::List;
use std::alloc::{AllocError, Global};

/// A chare of an accepted program, with the messages that came to it and what it did under them.
///
/// Once begun its history is that under its mail, its size is at most the limit, and no key is asked for
/// twice in it.
#[derive(Drop)]
pub struct Chare<'p> {
    accepted: &'p Accepted,
    number: u32,
    limit: u64,
    mail: Mail,
    begun: bool,
    history: History,
    pub ghost is_chare: { number < accepted.now.program.chares },
    pub ghost limit_in_range: { (1 ≤ limit) × (limit ≤ 262144) },
    pub ghost is_proper: { HoldsProper number (lookup mail) },
    pub ghost is_told: { history ≡ told begun accepted.now.program limit number (lookup mail) } by { Coded-set history-code _ _ },
    pub ghost is_small: { size history ≤ limit },
    pub ghost asks_once: { Apart one_asked history.asked } by { apart_prop history.asked },
}

/// How far a chare is.
#[derive(Clone, Copy, Debug, PartialEq, Eq, Drop)]
pub enum ChareState {
    /// It isn't begun.
    Idle,
    /// A statement of it trapped.
    Trapped,
    /// It waits for a message, and nothing trapped.
    Waits,
    /// Its body came to its end.
    Done,
}

impl<'p> Chare<'p> {
    ghost use Rattle.std.specs.Prelude.{◌≡◌, ◌≤◌, ◌<◌, ℕ, Bool, true, false, [], None, IfOk, IfErr, OnOk, OnErr};
    ghost use Rattle.bs_match.specs.Mail.{lookup, with_message};
    ghost use Rattle.bs_log.specs.Messages.{sends_of};
    ghost use Rattle.bs_log.specs.Histories.{no_history};
    ghost use Rattle.bs_chare.specs.Chare.{HoldsProper, IsProper};
    ghost use Rattle.bs_chare.specs.News.{AreNews};
    ghost use Rattle.bs_chare.specs.State.{IsSameChare, state_of};
    ghost use Rattle.bs_chare.specs.Fault.{IsRefused, IsRunFault, Runs, history_under};

    /// A chare of this number, counted from 0, that isn't begun and has no mail. The limit of the size of its
    /// history is from 1 to 262,144. It takes no memory.
    pub fn new(alloc: Global, accepted: &'p Accepted, number: u32, limit: u64) -> Chare<'p>
        requires number { number < accepted.now.program.chares }
        requires limit { (1 ≤ limit) × (limit ≤ 262144) }
        ensures accepted { result.accepted.now ≡ accepted.now }
        ensures number { result.number ≡ number }
        ensures limit { result.limit ≡ limit }
        ensures mail { result.mail ≡ [] }
        ensures begun { result.begun ≡ false }
        ensures history { result.history ≡ no_history }
    {
        Chare {
            accepted,
            number,
            limit,
            mail: Mail::new(alloc),
            begun: false,
            history: History {
                blocks: List::new(alloc),
                asked: List::new(alloc),
                waits: List::new(alloc),
                traps: List::new(alloc),
                ended: false,
            },
        }
    }

    /// How far the chare is: idle before it is begun, trapped where there is a trap, otherwise waiting where
    /// there is a wait, and otherwise done. It takes no memory.
    pub fn state(&self) -> ChareState
        ensures { result ≡ state_of self.now }
    {
        if !self.begun {
            ChareState::Idle
        } else if !self.history.traps.as_slice().is_empty() {
            ChareState::Trapped
        } else if !self.history.waits.as_slice().is_empty() {
            ChareState::Waits
        } else {
            ChareState::Done
        }
    }

    /// The messages that came to the chare. It takes no memory.
    pub fn mail(&self) -> &Mail
        ensures { result.now ≡ self.now.mail }
    {
        &self.mail
    }

    /// What the chare did: a history of nothing before it is begun, and then its history under its mail.
    pub fn history(&self, alloc: Global) -> Result<History, AllocError>
        ensures { IfOk result (λ history. history ≡ self.now.history) }
    {
        copy_history(alloc, &self.history)
    }

    /// An equal chare.
    pub fn copy(&self, alloc: Global) -> Result<Chare<'p>, AllocError>
        ensures { IfOk result (λ chare. chare ≡ self.now) }
    {
        let mail = self.mail.copy(alloc)?;
        let history = copy_history(alloc, &self.history)?;
        Ok(Chare {
            accepted: self.accepted,
            number: self.number,
            limit: self.limit,
            mail,
            begun: self.begun,
            history,
        })
    }

    /// Begins the chare: runs its body under the mail so far, and answers all that is sent, in the order of
    /// (path, place).
    ///
    /// `Long` comes exactly where the size of the history is above the limit, and `TwoAsked` exactly where it
    /// isn't and a key is asked for twice, but for want of memory. After a refusal the chare is as before.
    pub fn begin(&mut self, alloc: Global) -> Result<List<Message>, ChareFault>
        requires idle { self.old.begun ≡ false }
        ensures sent { IfOk result (λ sent. sent ≡ sends_of self.new.history.blocks) }
        ensures begun { OnOk result (self.new.begun ≡ true) }
        ensures mail { OnOk result (self.new.mail ≡ self.old.mail) }
        ensures same { OnOk result (IsSameChare self.old self.new) }
        ensures fault { IfErr result (λ fault. IsRunFault self.old.limit (history_under self.old (lookup self.old.mail)) fault) }
        ensures unchanged { OnErr result (self.new ≡ self.old) }
    {
        let history = self.run(alloc, &self.mail)?;
        // Nothing was sent before.
        let sent = news(alloc, &[], history.blocks.as_slice())?;
        self.history = history;
        self.begun = true;
        Ok(sent)
    }

    /// Takes a message that is sent to this chare, with a depth of at most 262,144. Where the chare is begun,
    /// its history is then that under the mail with this message. The answer is what the history sends that it
    /// didn't send before, in the order of (path, place): nothing before the chare is begun.
    ///
    /// `TwoSent` comes exactly where a message of its key is held, and hands the message back. Where the chare
    /// is begun, `Long` and `TwoAsked` come as from `begin`, by the history with this message. After a refusal
    /// the chare is as before.
    pub fn accept(&mut self, alloc: Global, message: Message) -> Result<List<Message>, ChareFault>
        requires proper { IsProper self.old.number message }
        ensures news { IfOk result (λ news. AreNews (sends_of self.old.history.blocks) (sends_of self.new.history.blocks) news) }
        ensures free { OnOk result (lookup self.old.mail message.sent.key ≡ None) }
        ensures held { OnOk result (lookup self.new.mail ≡ with_message message (lookup self.old.mail)) }
        ensures begun { OnOk result (self.new.begun ≡ self.old.begun) }
        ensures same { OnOk result (IsSameChare self.old self.new) }
        ensures fault { IfErr result (λ fault. IsRefused self.old message fault) }
        ensures unchanged { OnErr result (self.new ≡ self.old) }
    {
        if self.mail.get(message.sent.key).is_some() {
            return Err(ChareFault::TwoSent(message));
        }
        if self.begun {
            self.go_on(alloc, message)
        } else {
            put(&mut self.mail, message)?;
            Ok(List::new(alloc))
        }
    }

    // Takes a message of a key that isn't held, where the chare is begun.
    fn go_on(&mut self, alloc: Global, message: Message) -> Result<List<Message>, ChareFault>
        requires proper { IsProper self.old.number message }
        requires begun { self.old.begun ≡ true }
        requires free { lookup self.old.mail message.sent.key ≡ None }
        ensures news { IfOk result (λ news. AreNews (sends_of self.old.history.blocks) (sends_of self.new.history.blocks) news) }
        ensures held { OnOk result (lookup self.new.mail ≡ with_message message (lookup self.old.mail)) }
        ensures begun { OnOk result (self.new.begun ≡ true) }
        ensures same { OnOk result (IsSameChare self.old self.new) }
        ensures fault { IfErr result (λ fault. IsRunFault self.old.limit (history_under self.old (with_message message (lookup self.old.mail))) fault) }
        ensures unchanged { OnErr result (self.new ≡ self.old) }
    {
        let mut mail = self.mail.copy(alloc)?;
        put(&mut mail, message)?;
        let history = self.run(alloc, &mail)?;
        let before = self.history.blocks.as_slice();
        let sent = news(alloc, before, history.blocks.as_slice())?;
        self.mail = mail;
        self.history = history;
        Ok(sent)
    }

    // The history of the chare under a mail.
    fn run(&self, alloc: Global, mail: &Mail) -> Result<History, ChareFault>
        requires { HoldsProper self.now.number (lookup mail.now) }
        ensures { Runs self.now.limit (history_under self.now (lookup mail.now)) result }
    {
        // The keys of a mail rise, so that each of its messages is found by its key.
        let _ = mail.len();
        let history = match history(alloc, self.accepted, self.number, mail, self.limit) {
            Ok(history) => history,
            Err(HistoryFault::Long) => return Err(ChareFault::Long),
            Err(HistoryFault::Memory) => return Err(ChareFault::Memory),
        };
        ask_once(alloc, history.asked.as_slice())?;
        Ok(history)
    }
}

// Puts a message of a key that isn't held.
fn put(mail: &mut Mail, message: Message) -> Result<(), AllocError>
    requires { lookup mail.old message.sent.key ≡ None }
    ensures held { OnOk result (lookup mail.new ≡ with_message message (lookup mail.old)) }
    ensures unchanged { OnErr result (mail.new ≡ mail.old) }
{
    match mail.put(message) {
        Ok(()) => Ok(()),
        Err(PutFault::TwoSent(_)) => unreachable!(),
        Err(PutFault::Memory(_)) => Err(AllocError),
    }
}
