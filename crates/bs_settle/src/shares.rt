// What of a log falls to each processor.
ghost use Rattle.std.specs.Prelude.{◌≡◌, ◌<◌, ◌==◌, ◌++◌, ◌∷◌, [], ℕ, List, IfOk, OnOk, length};
ghost use Rattle.bs_log.specs.Valid.{IsValid};
ghost use Rattle.bs_log.specs.Lists.{Mem};
ghost use Rattle.bs_log.specs.declared.log.MailRef.{MailRef as Mail};
ghost use Rattle.bs_num.specs.declared.ticks.Tick.{Tick as Ticks};
ghost use Rattle.bs_machine.specs.Fitted.{processors_of};
ghost use Rattle.bs_times.specs.Net.{Net as Links};
ghost use Rattle.bs_line.specs.Listing.{row_if};
ghost use Rattle.bs_line.specs.Making.{kept_one};
ghost use Rattle.bs_rows.specs.Rows.{net_on, IsSend};
ghost use Rattle.bs_settle.specs.Shares.{AreAdded, AreShares, AreTicksFor, AreWhole};

use bs_line::Estimate;
use bs_log::{Log, MailRef};
use bs_machine::Fitted;
use bs_num::Tick;
use bs_rows::{count, goes_to, home};
use bs_tree::List;
use std::alloc::{AllocError, Global};

/// What falls to one processor: its rows, and the messages that come to it and go from it.
#[derive(Drop)]
pub(crate) struct Share {
    pub(crate) rows: List<u32>,
    pub(crate) comes: List<Estimate>,
    pub(crate) goes: List<Estimate>,
}

// What falls to each processor, of the listed messages with their ticks.
pub(crate) fn shares(
    alloc: Global,
    log: &Log,
    machine: &Fitted,
    mails: &[MailRef],
    ticks: &[Tick],
) -> Result<Vec<Share>, AllocError>
    requires valid { IsValid log.now }
    requires fitted { machine.now.chares ≡ log.now.chares }
    requires ticks { AreTicksFor (net_on log.now machine.now) mails.now ticks.now }
    ensures { IfOk result (λ shares. AreWhole (net_on log.now machine.now) (processors_of machine.now) mails.now ticks.now shares.items) }
{
    let mut shares = no_shares(alloc, machine.processors())?;
    share_rows(log, machine, &mut shares)?;
    share_mails(log, machine, mails, ticks, &mut shares)?;
    Ok(shares)
}

// A share of nothing for each of so many processors.
fn no_shares(alloc: Global, processors: u32) -> Result<Vec<Share>, AllocError>
    ensures { IfOk result (λ shares. (net : Links) (mails : List Mail) (ticks : List Ticks) → AreShares net processors 0 0 mails ticks shares.items) }
{
    let mut shares = Vec::new(alloc);
    for _processor in 0..processors {
        let nothing = Share {
            rows: List::new(alloc),
            comes: List::new(alloc),
            goes: List::new(alloc),
        };
        push(&mut shares, nothing)?;
    }
    Ok(shares)
}

fn push(shares: &mut Vec<Share>, share: Share) -> Result<(), AllocError>
    ensures { OnOk result (shares.new.items ≡ shares.old.items ++ share ∷ []) }
{
    shares.push(share)?;
    Ok(())
}

// Gives each row to its processor.
fn share_rows(log: &Log, machine: &Fitted, shares: &mut Vec<Share>) -> Result<(), AllocError>
    requires valid { IsValid log.now }
    requires fitted { machine.now.chares ≡ log.now.chares }
    requires many { length shares.old.items ≡ processors_of machine.now }
    ensures { OnOk result ((many : ℕ) (mails : List Mail) (ticks : List Ticks) → AreShares (net_on log.now machine.now) many 0 0 mails ticks shares.old.items → AreShares (net_on log.now machine.now) many (length log.now.rows) 0 mails ticks shares.new.items) }
{
    for place in 0..count(log) {
        push_row(shares, home(log, machine, place + 1), place + 1)?;
    }
    Ok(())
}

// Gives each message to the processor that it goes to, and to that of its sender.
fn share_mails(
    log: &Log,
    machine: &Fitted,
    mails: &[MailRef],
    ticks: &[Tick],
    shares: &mut Vec<Share>,
) -> Result<(), AllocError>
    requires valid { IsValid log.now }
    requires fitted { machine.now.chares ≡ log.now.chares }
    requires many { length shares.old.items ≡ processors_of machine.now }
    requires sends { (m : Mail) → Mem m mails.now → IsSend log.now m }
    requires each { length ticks.now ≡ length mails.now }
    ensures { OnOk result ((many n : ℕ) → AreShares (net_on log.now machine.now) many n 0 mails.now ticks.now shares.old.items → AreShares (net_on log.now machine.now) many n (length mails.now) mails.now ticks.now shares.new.items) }
{
    for k in 0..mails.len() {
        let estimate = Estimate {
            mail: mails[k],
            tick: ticks[k],
        };
        push_coming(shares, goes_to(log, machine, mails[k]), estimate)?;
        push_going(shares, home(log, machine, mails[k].row), estimate)?;
    }
    Ok(())
}

fn push_row(shares: &mut Vec<Share>, home: u32, row: u32) -> Result<(), AllocError>
    requires { home < length shares.old.items }
    ensures { OnOk result (AreAdded shares.old.items shares.new.items (λ p. row_if (home == p) row) (λ p. []) (λ p. [])) }
{
    shares[home as usize].rows.push(row)?;
    Ok(())
}

fn push_coming(shares: &mut Vec<Share>, to: u32, estimate: Estimate) -> Result<(), AllocError>
    requires { to < length shares.old.items }
    ensures { OnOk result (AreAdded shares.old.items shares.new.items (λ p. []) (λ p. kept_one (to == p) estimate.mail estimate.tick) (λ p. [])) }
{
    shares[to as usize].comes.push(estimate)?;
    Ok(())
}

fn push_going(shares: &mut Vec<Share>, from: u32, estimate: Estimate) -> Result<(), AllocError>
    requires { from < length shares.old.items }
    ensures { OnOk result (AreAdded shares.old.items shares.new.items (λ p. []) (λ p. []) (λ p. kept_one (from == p) estimate.mail estimate.tick)) }
{
    shares[from as usize].goes.push(estimate)?;
    Ok(())
}
