// The lines of all processors of a log.
ghost use Rattle.std.specs.Prelude.{◌≡◌, ◌≤◌, ◌^◌, length};
ghost use Rattle.bs_log.specs.Valid.{IsValid};
ghost use Rattle.bs_times.specs.Net.{row_of};
ghost use Rattle.bs_times.specs.Times.{budget, greatest_to};
ghost use Rattle.bs_settle.specs.Field.{IsField, net_in};

use bs_line::Line;
use bs_log::Log;
use bs_machine::Fitted;
use bs_num::Tick;
use bs_rows::{count, row_at};
use bs_tree::List;

/// When the messages of a log are thought to arrive, before anything is known.
#[derive(Debug, Drop)]
pub enum Estimates {
    /// All at tick 0.
    Zero,
    /// One tick below 2^107 for each listed message, in the order of (row, index).
    Given(List<Tick>),
}

/// The lines of a log on a machine: one for each processor that has a row.
///
/// Its ticks are those that the lines hold for the messages that some row names as a cause.
#[derive(Drop)]
pub struct Field<'l> {
    pub(crate) log: &'l Log,
    pub(crate) machine: &'l Fitted,
    // In the order of their processors.
    pub(crate) lines: Vec<Line<'l>>,
    // For each processor that has a row the place of its line.
    pub(crate) places: Vec<usize>,
}

impl<'l> Field<'l> {
    /// The log that the field was made from. It takes no memory.
    pub fn log(&self) -> &'l Log
        ensures { result ≡ self.now.log }
    {
        self.log
    }

    /// The machine that the field was made for. It takes no memory.
    pub fn machine(&self) -> &'l Fitted
        ensures { result ≡ self.now.machine }
    {
        self.machine
    }

    /// So many waves are enough from any estimates: the number of rows times (the greatest depth + 1),
    /// and 2. It is at most 2^40, and takes no memory.
    pub fn budget(&self) -> u64
        requires { IsField self.now }
        ensures value { result ≡ budget (net_in self.now) }
        ensures range { (1 ≤ result) × (result ≤ 2 ^ 40) }
    {
        let rows = count(self.log);
        u64::from(rows) * (u64::from(greatest_depth(self.log)) + 1) + 2
    }
}

// The greatest depth of a row, and 0 without rows.
fn greatest_depth(log: &Log) -> u32
    requires { IsValid log.now }
    ensures { result ≡ greatest_to (λ i. (row_of log.now i).depth) (length log.now.rows) }
{
    let mut most = 0;
    for place in 0..count(log) {
        most = most.max(row_at(log, place + 1).depth);
    }
    most
}
