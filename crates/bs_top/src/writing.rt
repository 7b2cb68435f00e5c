// Writing what a command says.
ghost use Rattle.std.specs.Prelude.{◌≡◌};
ghost use Rattle.bs_top.specs.Performs.{Puts, Refuses, Tells, written_status as written_status_of};
ghost use Rattle.bs_top.specs.Seen.{said_of, target_of};
ghost use Rattle.bs_top.specs.Targets.{in_file};

use crate::reply::{Reply, Target};
use crate::status::{Status, refused_status};
use bs_desk::{Desk, DeskFault, Port, write_all};
use bs_report::{Fault, fault_line};
use std::alloc::Global;

/// The status of texts that are written whole, or of what refused them.
pub(crate) fn written_status(status: Status, written: Result<(), DeskFault>) -> Status
    ensures { result ≡ written_status_of status written }
{
    match written {
        Ok(()) => status,
        Err(DeskFault::Failed) => Status::WriteFault,
        Err(DeskFault::Memory) => Status::Memory,
    }
}

/// Writes the line of a refusal to standard error.
pub(crate) fn refuse<D: Desk>(alloc: Global, desk: &mut D, fault: &Fault) -> Status
    ensures { Refuses fault.now (D.world desk.old) (D.world desk.new) result }
{
    match fault_line(alloc, fault) {
        Ok(line) => {
            let written = put(desk, &Target::Errors, line.as_slice());
            written_status(refused_status(fault), written)
        }
        Err(_) => Status::Memory,
    }
}

/// Writes what a reply says: its note, if there is one, and then its text.
pub(crate) fn tell<D: Desk>(desk: &mut D, reply: &Reply) -> Result<(), DeskFault>
    ensures { Tells (said_of reply.now).note (said_of reply.now).target (said_of reply.now).text (D.world desk.old) (D.world desk.new) result }
{
    if let Some(note) = &reply.note {
        save(desk, note.name.as_str(), note.text.as_slice())?;
    }
    put(desk, &reply.target, reply.text.as_slice())
}

// Puts a text in its place.
fn put<D: Desk>(desk: &mut D, target: &Target, text: &[u8]) -> Result<(), DeskFault>
    ensures { Puts (target_of target.now) text.now (D.world desk.old) (D.world desk.new) result }
{
    match target {
        Target::Output => write_all(desk, Port::Out, text),
        Target::Errors => write_all(desk, Port::Err, text),
        Target::File(name) => save(desk, name.as_str(), text),
    }
}

// Makes the file of that name, in place of one that is there, and writes a text to it.
fn save<D: Desk>(desk: &mut D, name: &str, text: &[u8]) -> Result<(), DeskFault>
    ensures { Puts (in_file name.now) text.now (D.world desk.old) (D.world desk.new) result }
{
    desk.create(name)?;
    write_all(desk, Port::File, text)
}
