// The line of a processor.
ghost use Rattle.std.specs.Prelude.{◌≡◌, ◌≢◌, ◌<◌, ◌≤◌, ◌^◌, ◌↔◌, ◌⊎◌, ℕ, IfOk, IsTrue, MatchOption, OnErr, OnOk, false, true};
ghost use Rattle.bs_log.specs.declared.log.MailRef.{MailRef as Mail};
ghost use Rattle.bs_times.specs.Times.{IsLine, IsOn, arrival};
ghost use Rattle.bs_line.specs.Layout.{ComesTo, GoesFrom, sends_of};
ghost use Rattle.bs_line.specs.Line.{IsDirtyLine, IsLeastMoved, IsMoved, IsReady, IsSameLine, changes, given_of, held_of, net_at, starts_of, used_of};
ghost use Rattle.bs_line.specs.Places.{differ as differ_of};

use crate::bases::bases;
use crate::corrections::{Correction, arrivals, corrections};
use crate::layout::Layout;
use crate::places::{mail_place, row_place};
use bs_log::{Log, MailRef};
use bs_machine::Fitted;
use bs_num::Tick;
use bs_schedule::schedule;
use bs_tree::List;
use std::alloc::{AllocError, Global};

/// The rows of one processor, the ticks that it holds for the listed messages that come to it, and those
/// that it gave last for the listed messages that its rows send.
///
/// A line is made by `Line::new` or `Line::of_rows`, and each call leaves it ready for the next one.
#[derive(Drop)]
pub struct Line<'l> {
    pub log: &'l Log,
    pub machine: &'l Fitted,
    /// The processor, from 0.
    pub processor: u32,
    pub layout: Layout,
    /// When the messages that come to the line are thought to arrive.
    pub held: Vec<u128>,
    /// The ticks that the last recomputation used.
    pub used: Vec<u128>,
    /// At how many places `held` and `used` differ.
    pub changed: usize,
    /// The arrivals of the messages that the line sends, as they were given last.
    pub given: Vec<u128>,
    /// The starts that the last recomputation gave, by the rows' numbers on the line.
    pub starts: Vec<u128>,
    /// Whether the line was ever recomputed.
    pub begun: bool,
}

/// A message whose tick isn't the one that the line's last recomputation used.
#[derive(Clone, Copy, Debug, PartialEq, Eq, Drop)]
pub struct Differs {
    pub mail: MailRef,
    /// The tick that was used.
    pub kept: Tick,
    /// The tick that is held.
    pub due: Tick,
}

impl<'l> Line<'l> {
    /// Holds a message at a tick below 2^110, and answers whether it was held at another one. The
    /// message is one that a row of the line lists. It takes no memory, and a time that is logarithmic in
    /// the messages that come to the line.
    pub fn set(&mut self, mail: MailRef, tick: Tick) -> bool
        requires ready { IsReady self.old }
        requires listed { ComesTo (net_at self.old) self.old.processor mail }
        requires early { tick.0 < 2 ^ 110 }
        ensures ready { IsReady self.new }
        ensures same { IsSameLine self.old self.new }
        ensures held { held_of self.new mail ≡ tick.0 }
        ensures others { (m : Mail) → m ≢ mail → held_of self.new m ≡ held_of self.old m }
        ensures used { self.new.used ≡ self.old.used }
        ensures given { self.new.given ≡ self.old.given }
        ensures starts { self.new.starts ≡ self.old.starts }
        ensures begun { self.new.begun ≡ self.old.begun }
        ensures changed { IsTrue result ↔ (held_of self.old mail ≢ tick.0) }
    {
        let place = mail_place(self.layout.mails.as_slice(), mail);
        let was = self.held[place];
        let used = self.used[place];
        self.held[place] = tick.0;
        self.changed = self.changed - differ(was, used) + differ(tick.0, used);
        was != tick.0
    }

    /// Computes the starts from the ticks that the line holds, and answers a correction for each listed
    /// message sent from here whose arrival isn't the one given last, in the order of (row, index).
    ///
    /// The first time that is the estimate. The arrivals are below 2^111, and are then those given last.
    /// The time that it takes is near-linear in the line's rows and their causes. The only refusal is
    /// want of memory, and the line is then as before.
    pub fn recompute(&mut self, alloc: Global) -> Result<List<Correction>, AllocError>
        requires { IsReady self.old }
        ensures ready { IsReady self.new }
        ensures same { IsSameLine self.old self.new }
        ensures held { self.new.held ≡ self.old.held }
        ensures starts { OnOk result (IsLine (net_at self.old) self.old.processor (held_of self.old) (starts_of self.new)) }
        ensures given { OnOk result ((m : Mail) → GoesFrom (net_at self.old) self.old.processor m → given_of self.new m ≡ arrival (net_at self.old) (starts_of self.new) m) }
        ensures early { OnOk result ((m : Mail) → given_of self.new m < 2 ^ 111) }
        ensures used { OnOk result (self.new.used.items ≡ self.old.held.items) }
        ensures begun { OnOk result (self.new.begun ≡ true) }
        ensures corrections { IfOk result (λ list. list ≡ changes (net_at self.old) (given_of self.old) (given_of self.new) (sends_of self.old.layout)) }
        ensures err { OnErr result (self.new ≡ self.old) }
    {
        let base = bases(alloc, self.layout.slots.as_slice(), &self.held)?;
        let starts = schedule(alloc, &self.layout.plan, &base)?;
        let ticks = arrivals(alloc, self.layout.outs.as_slice(), &starts)?;
        let list = corrections(alloc, self.layout.outs.as_slice(), &self.given, &ticks)?;
        let used = Vec::from_slice(alloc, &self.held)?;
        self.starts = starts;
        self.given = ticks;
        self.used = used;
        self.changed = 0;
        self.begun = true;
        Ok(list)
    }

    /// The start of a row of the line, by its number in the log, as the last recomputation gave it. It
    /// takes no memory, and a time that is logarithmic in the rows of the line.
    pub fn start(&self, row: u32) -> Tick
        requires ready { IsReady self.now }
        requires begun { self.now.begun ≡ true }
        requires on { IsOn (net_at self.now) self.now.processor row }
        ensures { result.0 ≡ starts_of self.now row }
    {
        let place = row_place(self.layout.rows.as_slice(), row);
        Tick(self.starts[place + 1])
    }

    /// Whether the line was never recomputed, or holds a tick other than the one that its last
    /// recomputation used. It takes no memory, and a time that is the same for all lines.
    pub fn is_dirty(&self) -> bool
        requires { IsReady self.now }
        ensures { IsTrue result ↔ IsDirtyLine self.now }
    {
        !self.begun || self.changed != 0
    }

    /// The least message whose tick isn't the one that the last recomputation used, with both ticks. It
    /// takes no memory.
    ///
    /// None comes exactly where the line was never recomputed or no tick differs.
    pub fn differs(&self) -> Option<Differs>
        requires { IsReady self.now }
        ensures { MatchOption result ((self.now.begun ≡ false) ⊎ ((m : Mail) → IsMoved self.now m → ⊥)) (IsLeastMoved self.now) }
    {
        if !self.begun {
            return None;
        }
        let mails = self.layout.mails.as_slice();
        for place in 0..mails.len() {
            if self.held[place] != self.used[place] {
                return Some(Differs {
                    mail: mails[place],
                    kept: Tick(self.used[place]),
                    due: Tick(self.held[place]),
                });
            }
        }
        None
    }
}

// 1 for two ticks that differ.
fn differ(a: u128, b: u128) -> usize
    ensures value { result ≡ differ_of a b }
    ensures small { result ≤ 1 }
{
    if a == b { 0 } else { 1 }
}
