// How a command ends.
ghost use Rattle.std.specs.Prelude.{◌≡◌};
ghost use Rattle.bs_top.specs.Answer.{refused_by, status_at, status_of as status_after};
ghost use Rattle.bs_top.specs.Codes.{code_of};

use crate::reply::Ending;
use bs_log::End;
use bs_report::Fault;

/// How a command ends, each with its exit code.
#[derive(Clone, Copy, Debug, PartialEq, Eq, Drop)]
pub enum Status {
    /// The run came to its end, and nobody waits (0).
    Settled,
    /// The run came to its end, and somebody waits (3).
    Deadlock,
    /// A statement stopped (4).
    Trapped,
    /// The words are no command (10).
    BadWords,
    /// The text is no program (11).
    BadProgram,
    /// The program breaks a rule of the language (12).
    CheckFailed,
    /// The machine's file is no machine, or the machine doesn't fit the program (13).
    BadMachine,
    /// The log's file is the text of no valid log (14).
    BadLog,
    /// A chare is sent one key twice, or asks for one key twice (15).
    AmbiguousMatch,
    /// The size of the run is above the limit (16).
    TooLong,
    /// The last wave of the given number of waves still changed a tick (17).
    BudgetSpent,
    /// A file has more bytes than it may have (18).
    TooBig,
    /// A file could not be opened or read (20).
    ReadFault,
    /// A text could not be written whole (21).
    WriteFault,
    /// There is no file of that name (22).
    NoFile,
    /// Memory was wanting (30).
    Memory,
}

impl Status {
    /// The exit code of the program.
    pub fn code(self) -> u8
        ensures { result ≡ code_of self }
    {
        match self {
            Status::Settled => 0,
            Status::Deadlock => 3,
            Status::Trapped => 4,
            Status::BadWords => 10,
            Status::BadProgram => 11,
            Status::CheckFailed => 12,
            Status::BadMachine => 13,
            Status::BadLog => 14,
            Status::AmbiguousMatch => 15,
            Status::TooLong => 16,
            Status::BudgetSpent => 17,
            Status::TooBig => 18,
            Status::ReadFault => 20,
            Status::WriteFault => 21,
            Status::NoFile => 22,
            Status::Memory => 30,
        }
    }
}

/// The status of a command that has something to say.
pub(crate) fn status_of(ending: Ending) -> Status
    ensures { result ≡ status_after ending }
{
    match ending {
        Ending::Run(end) => end_status(end),
        Ending::Spent => Status::BudgetSpent,
    }
}

fn end_status(end: End) -> Status
    ensures { result ≡ status_at end }
{
    match end {
        End::Settled => Status::Settled,
        End::Deadlock => Status::Deadlock,
        End::Trapped => Status::Trapped,
    }
}

/// The status of a refusal.
pub(crate) fn refused_status(fault: &Fault) -> Status
    ensures { result ≡ refused_by fault.now }
{
    match fault {
        Fault::BadWords => Status::BadWords,
        Fault::BadProgram(_) => Status::BadProgram,
        Fault::CheckFailed(_) => Status::CheckFailed,
        Fault::BadMachine(_) | Fault::BadPlace(_) => Status::BadMachine,
        Fault::BadLog(_) => Status::BadLog,
        Fault::Ambiguous(_) => Status::AmbiguousMatch,
        Fault::TooLong(_) => Status::TooLong,
        Fault::BudgetSpent(_) => Status::BudgetSpent,
        Fault::TooBig(_) => Status::TooBig,
    }
}
