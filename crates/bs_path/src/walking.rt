// From a row back to one that starts at tick 0.
ghost use Rattle.std.specs.Prelude.{◌≡◌, ◌≤◌, ◌<◌, ◌^◌, IfOk, ℕ, length};
ghost use Rattle.std.specs.BTreeMap.{get};
ghost use Rattle.std.specs.List.{All};
ghost use Rattle.bs_log.specs.Valid.{IsValid};
ghost use Rattle.bs_rows.specs.Rows.{net_on};
ghost use Rattle.bs_settle.specs.Timed.{numbers};
ghost use Rattle.bs_times.specs.Net.{HasRow};
ghost use Rattle.bs_times.specs.Times.{IsConsistent};
ghost use Rattle.bs_path.specs.Chain.{IsLinkOf, LeadTo, comes_from as named_by, row_of_chain, start_in, step_from};
ghost use Rattle.bs_path.specs.Ended.{EndsAt, first_cause, key_cmp, link_by};

use crate::causes::{arrived_cause, ended_cause};
use crate::ended::ended_at;
use crate::links::{ChainRow, Link};
use crate::reading::start;
use bs_log::Log;
use bs_machine::Fitted;
use bs_num::Tick;
use bs_rows::home;
use bs_tree::List;
use std::alloc::{AllocError, Global};
use std::collections::BTreeMap;

/// The rows that lead to a row, and this row.
pub(crate) fn rows_to(
    alloc: Global,
    log: &Log,
    machine: &Fitted,
    starts: &[Tick],
    ended: &BTreeMap<(u32, u128), u32>,
    last: u32,
) -> Result<List<ChainRow>, AllocError>
    requires valid { IsValid log.now }
    requires fitted { machine.now.chares ≡ log.now.chares }
    requires each { length starts.now ≡ length log.now.rows }
    requires early { All (λ tick. tick.0 < 2 ^ 109) starts.now }
    requires table { IsConsistent (net_on log.now machine.now) (start_in (numbers starts.now)) }
    requires ended { (p t : ℕ) → EndsAt (net_on log.now machine.now) (start_in (numbers starts.now)) (length log.now.rows) p t (get key_cmp ended.now (p, t)) }
    requires row { HasRow (net_on log.now machine.now) last }
    ensures { IfOk result (LeadTo (net_on log.now machine.now) (start_in (numbers starts.now)) last) }
{
    let mut back = Vec::new(alloc);
    let mut next = Some(last);
    while let Some(number) = next {
        let row = chain_row(log, machine, starts, ended, number);
        next = comes_from(row.link);
        back.push(row)?;
    }
    back.reverse();
    Ok(List::from_vec(back))
}

// What a chain says of a row.
fn chain_row(
    log: &Log,
    machine: &Fitted,
    starts: &[Tick],
    ended: &BTreeMap<(u32, u128), u32>,
    number: u32,
) -> ChainRow
    requires valid { IsValid log.now }
    requires fitted { machine.now.chares ≡ log.now.chares }
    requires each { length starts.now ≡ length log.now.rows }
    requires early { All (λ tick. tick.0 < 2 ^ 109) starts.now }
    requires table { IsConsistent (net_on log.now machine.now) (start_in (numbers starts.now)) }
    requires ended { (p t : ℕ) → EndsAt (net_on log.now machine.now) (start_in (numbers starts.now)) (length log.now.rows) p t (get key_cmp ended.now (p, t)) }
    requires row { HasRow (net_on log.now machine.now) number }
    ensures row { result ≡ row_of_chain (start_in (numbers starts.now)) number result.link }
    ensures link { IsLinkOf (net_on log.now machine.now) (start_in (numbers starts.now)) number result.link }
{
    let link = link_of(log, machine, starts, ended, number);
    ChainRow {
        row: number,
        start: start(starts, number),
        step: step(log, machine, starts, number, link),
        link,
    }
}

// How many ticks a row starts after the one that its link names.
fn step(log: &Log, machine: &Fitted, starts: &[Tick], number: u32, link: Link) -> u128
    requires valid { IsValid log.now }
    requires each { length starts.now ≡ length log.now.rows }
    requires early { All (λ tick. tick.0 < 2 ^ 109) starts.now }
    requires row { HasRow (net_on log.now machine.now) number }
    requires link { IsLinkOf (net_on log.now machine.now) (start_in (numbers starts.now)) number link }
    ensures { result ≡ step_from (start_in (numbers starts.now)) number (named_by link) }
{
    match comes_from(link) {
        None => 0,
        Some(before) => start(starts, number) - start(starts, before),
    }
}

// The row that a link names.
fn comes_from(link: Link) -> Option<u32>
    ensures { result ≡ named_by link }
{
    match link {
        Link::First => None,
        Link::Processor(row) | Link::After(row) => Some(row),
        Link::Mail(mail) => Some(mail.row),
    }
}

// The link of a row: the first that fits.
fn link_of(
    log: &Log,
    machine: &Fitted,
    starts: &[Tick],
    ended: &BTreeMap<(u32, u128), u32>,
    number: u32,
) -> Link
    requires valid { IsValid log.now }
    requires fitted { machine.now.chares ≡ log.now.chares }
    requires each { length starts.now ≡ length log.now.rows }
    requires early { All (λ tick. tick.0 < 2 ^ 109) starts.now }
    requires row { HasRow (net_on log.now machine.now) number }
    ensures { result ≡ link_by (net_on log.now machine.now) (start_in (numbers starts.now)) number (get key_cmp ended.now ((net_on log.now machine.now).home number, start_in (numbers starts.now) number)) }
{
    let tick = start(starts, number);
    if tick == 0 {
        return Link::First;
    }
    match ended_at(ended, home(log, machine, number), tick) {
        Some(row) => Link::Processor(row),
        None => cause_of(log, machine, starts, number, tick),
    }
}

// The link by the first cause that ends or arrives when the row starts, which is above tick 0.
fn cause_of(log: &Log, machine: &Fitted, starts: &[Tick], number: u32, tick: u128) -> Link
    requires valid { IsValid log.now }
    requires fitted { machine.now.chares ≡ log.now.chares }
    requires each { length starts.now ≡ length log.now.rows }
    requires early { All (λ tick. tick.0 < 2 ^ 109) starts.now }
    requires row { HasRow (net_on log.now machine.now) number }
    ensures { result ≡ first_cause (net_on log.now machine.now) (start_in (numbers starts.now)) number tick }
{
    match ended_cause(log, machine, starts, number, tick) {
        Some(row) => Link::After(row),
        None => match arrived_cause(log, machine, starts, number, tick) {
            Some(mail) => Link::Mail(mail),
            // A row that starts above tick 0 waits for something.
            None => Link::First,
        },
    }
}
