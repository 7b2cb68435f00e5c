// Whether a row of a chain is led to by the row before it.
ghost use Rattle.std.specs.Prelude.{◌≡◌, ◌≤◌, ◌<◌, ◌^◌, Decides, length};
ghost use Rattle.std.specs.List.{All};
ghost use Rattle.bs_log.specs.Lists.{Mem};
ghost use Rattle.bs_log.specs.Valid.{IsValid};
ghost use Rattle.bs_rows.specs.Rows.{net_on};
ghost use Rattle.bs_settle.specs.Timed.{numbers};
ghost use Rattle.bs_times.specs.Net.{HasRow, row_of};
ghost use Rattle.bs_times.specs.Times.{IsConsistent};
ghost use Rattle.bs_path.specs.declared.links.Link.TheVariants.{First};
ghost use Rattle.bs_path.specs.Chain.{start_in};
ghost use Rattle.bs_path.specs.Checked.{IsKnown};
ghost use Rattle.bs_path.specs.Sound.{Leads, LinkHolds};

use crate::links::{ChainRow, Link};
use crate::neighbours::is_just_before;
use bs_log::{Log, MailRef};
use bs_machine::Fitted;
use bs_num::Tick;
use bs_rows::row_at;

/// Whether the link of a row names the row before it and leads from there, or names none where there is no
/// row before it, and the row starts at tick 0.
pub(crate) fn link_holds(
    log: &Log,
    machine: &Fitted,
    starts: &[Tick],
    before: Option<ChainRow>,
    row: ChainRow,
) -> bool
    requires valid { IsValid log.now }
    requires fitted { machine.now.chares ≡ log.now.chares }
    requires each { length starts.now ≡ length log.now.rows }
    requires early { All (λ tick. tick.0 < 2 ^ 109) starts.now }
    requires table { IsConsistent (net_on log.now machine.now) (start_in (numbers starts.now)) }
    requires before { IsKnown (net_on log.now machine.now) (start_in (numbers starts.now)) before }
    requires row { HasRow (net_on log.now machine.now) row.row }
    requires start { row.start ≡ start_in (numbers starts.now) row.row }
    ensures { Decides result (LinkHolds (net_on log.now machine.now) (start_in (numbers starts.now)) before row) }
{
    match before {
        None => is_first(row.link) && row.start == 0,
        Some(before) => leads(log, machine, starts, before.row, row.row, row.link),
    }
}

fn is_first(link: Link) -> bool
    ensures { Decides result (link ≡ First) }
{
    matches!(link, Link::First)
}

// Whether a link leads from one row to another.
fn leads(log: &Log, machine: &Fitted, starts: &[Tick], before: u32, number: u32, link: Link) -> bool
    requires valid { IsValid log.now }
    requires fitted { machine.now.chares ≡ log.now.chares }
    requires each { length starts.now ≡ length log.now.rows }
    requires early { All (λ tick. tick.0 < 2 ^ 109) starts.now }
    requires table { IsConsistent (net_on log.now machine.now) (start_in (numbers starts.now)) }
    requires before { HasRow (net_on log.now machine.now) before }
    requires row { HasRow (net_on log.now machine.now) number }
    ensures { Decides result (Leads (net_on log.now machine.now) (start_in (numbers starts.now)) before number link) }
{
    match link {
        Link::First => false,
        Link::Processor(row) => {
            row == before && is_just_before(log, machine, starts, before, number)
        }
        Link::After(row) => row == before && is_block_cause(log, number, row),
        Link::Mail(mail) => mail.row == before && is_mail_cause(log, number, mail),
    }
}

fn is_block_cause(log: &Log, number: u32, row: u32) -> bool
    requires some { 1 ≤ number }
    requires most { number ≤ length log.now.rows }
    ensures { Decides result (Mem row (row_of log.now number).after) }
{
    for cause in row_at(log, number).after.as_slice() {
        if *cause == row {
            return true;
        }
    }
    false
}

fn is_mail_cause(log: &Log, number: u32, mail: MailRef) -> bool
    requires some { 1 ≤ number }
    requires most { number ≤ length log.now.rows }
    ensures { Decides result (Mem mail (row_of log.now number).mail) }
{
    for cause in row_at(log, number).mail.as_slice() {
        if *cause == mail {
            return true;
        }
    }
    false
}
