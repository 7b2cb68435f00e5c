// Whether the step of a row of a chain is right.
ghost use Rattle.std.specs.Prelude.{◌≡◌, ◌<◌, ◌^◌, Decides, length};
ghost use Rattle.std.specs.List.{All};
ghost use Rattle.bs_log.specs.Valid.{IsValid};
ghost use Rattle.bs_rows.specs.Rows.{net_on};
ghost use Rattle.bs_settle.specs.Timed.{numbers};
ghost use Rattle.bs_times.specs.Net.{HasRow};
ghost use Rattle.bs_path.specs.Chain.{start_in};
ghost use Rattle.bs_path.specs.Checked.{IsKnown, NamesSend};
ghost use Rattle.bs_path.specs.Sound.{LinkHolds, StepHolds, takes as ticks_of};

use crate::links::{ChainRow, Link};
use bs_log::Log;
use bs_machine::Fitted;
use bs_num::Tick;
use bs_rows::{duration, travel};

/// Whether a row's step is what its link takes from the row before, and leads to its start; or is 0 where
/// there is no row before.
pub(crate) fn step_holds(
    log: &Log,
    machine: &Fitted,
    starts: &[Tick],
    before: Option<ChainRow>,
    row: ChainRow,
) -> bool
    requires valid { IsValid log.now }
    requires fitted { machine.now.chares ≡ log.now.chares }
    requires early { All (λ tick. tick.0 < 2 ^ 109) starts.now }
    requires each { length starts.now ≡ length log.now.rows }
    requires before { IsKnown (net_on log.now machine.now) (start_in (numbers starts.now)) before }
    requires row { HasRow (net_on log.now machine.now) row.row }
    requires link { LinkHolds (net_on log.now machine.now) (start_in (numbers starts.now)) before row }
    ensures { Decides result (StepHolds (net_on log.now machine.now) before row) }
{
    match before {
        None => row.step == 0,
        Some(before) => {
            row.step == u128::from(takes(log, machine, before.row, row.link))
                && before.start + row.step == row.start
        }
    }
}

// How many ticks a link takes from the start of the row that it names.
fn takes(log: &Log, machine: &Fitted, before: u32, link: Link) -> u64
    requires valid { IsValid log.now }
    requires fitted { machine.now.chares ≡ log.now.chares }
    requires before { HasRow (net_on log.now machine.now) before }
    requires link { NamesSend log.now link }
    ensures { result ≡ ticks_of (net_on log.now machine.now) before link }
{
    match link {
        Link::First => 0,
        Link::Processor(_) | Link::After(_) => duration(log, machine, before),
        Link::Mail(mail) => travel(log, machine, mail),
    }
}
