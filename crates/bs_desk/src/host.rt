// The desk of the machine that the program runs on.
ghost use Rattle.std.specs.Prelude.{◌≡◌, IfErr, IfOk, IsTrue, length};
ghost use Rattle.bs_desk.specs.Outside.{MayWrite, Opens, ReadRefused, Reads, Creates, WriteRefused, Writes, untold};
ghost use Rattle.bs_desk.specs.Host.{RaisesReading, RaisesWriting};

use crate::desk::{Desk, DeskFault, Port};
use std::io::{ErrorKind, Read, Write};
use std::marker::Model;
use std::rt::Files;
use std::{fs, io};

/// Real files, standard output and standard error.
///
/// It tells no content, and it can fail. Each refusal is `Failed`, also where the machine was short of
/// memory, and raises the call's count by one, up to 2^64 - 1.
#[derive(Drop)]
pub struct HostDesk<'r, R: Files + Print + Eprint> {
    rt: &'r R,
    opened: Option<R::File>,
    created: Option<R::File>,
    found: bool,
    taken: u64,
    read_faults: u64,
    write_faults: u64,
}

impl<'r, R: Files + Print + Eprint> Model for HostDesk<'r, R> {
    ghost use Rattle.std.specs.Prelude.{is_some};
    ghost use Rattle.bs_desk.specs.Outside.{Outside, untold};
    ghost use Rattle.bs_desk.specs.InMemory.{outside_code};

    ghost Value = { Outside };

    ghost coded = { outside_code };

    ghost view = { λ d. record untold {
      is_open = is_some d.opened;
      is_created = is_some d.created;
      found = d.found;
      taken = d.taken;
      read_faults = d.read_faults;
      write_faults = d.write_faults;
    } };
}

impl<'r, R: Files + Print + Eprint> HostDesk<'r, R> {
    /// A desk on which no call was made yet: no file is opened or created, and both counts are 0. It
    /// takes no memory.
    pub fn new(rt: &'r R) -> HostDesk<'r, R>
        ensures { result ≡ untold }
    {
        HostDesk {
            rt,
            opened: None,
            created: None,
            found: true,
            taken: 0,
            read_faults: 0,
            write_faults: 0,
        }
    }

    fn read_fault(&mut self) -> DeskFault
        ensures refused { ReadRefused result self.old self.new }
        ensures raises { RaisesReading self.old self.new result }
    {
        self.read_faults = self.read_faults.saturating_add(1);
        DeskFault::Failed
    }

    fn write_fault(&mut self) -> DeskFault
        ensures refused { WriteRefused result self.old self.new }
        ensures raises { RaisesWriting self.old self.new result }
    {
        self.write_faults = self.write_faults.saturating_add(1);
        DeskFault::Failed
    }
}

impl<R: Files + Print + Eprint> Desk for HostDesk<'_, R> {
    ghost world = { λ d. d };

    /// `false` comes where the machine's error is of the kind `NotFound`. Each other error is a
    /// fault.
    fn open(&mut self, name: &str) -> Result<bool, DeskFault>
        ensures opens { Opens name.now self.old self.new result }
        ensures raises { IfErr result (RaisesReading self.old self.new) }
    {
        match fs::open(self.rt, name) {
            Ok(file) => {
                self.opened = Some(file);
                self.found = true;
                self.taken = 0;
                Ok(true)
            }
            Err(e) if e.kind() == ErrorKind::NotFound => {
                self.found = false;
                self.taken = 0;
                Ok(false)
            }
            Err(_) => Err(self.read_fault()),
        }
    }

    fn read(&mut self, room: &mut [u8]) -> Result<usize, DeskFault>
        requires { IsTrue self.old.is_open }
        ensures reads { Reads self.old self.new room.new result }
        ensures raises { IfErr result (RaisesReading self.old self.new) }
    {
        let Some(file) = &mut self.opened else {
            unreachable!()
        };
        match file.read(room) {
            Ok(count) => {
                self.taken = self.taken.saturating_add(count as u64);
                Ok(count)
            }
            Err(_) => Err(self.read_fault()),
        }
    }

    fn create(&mut self, name: &str) -> Result<(), DeskFault>
        ensures creates { Creates name.now self.old self.new result }
        ensures raises { IfErr result (RaisesWriting self.old self.new) }
    {
        match fs::create(self.rt, name) {
            Ok(file) => {
                self.created = Some(file);
                Ok(())
            }
            Err(_) => Err(self.write_fault()),
        }
    }

    /// A write that takes nothing of a piece that isn't empty is a fault. So is a piece for standard
    /// error that is no UTF-8, since standard error takes text only.
    fn write(&mut self, port: Port, bytes: &[u8]) -> Result<usize, DeskFault>
        requires { MayWrite port self.old }
        ensures writes { Writes port bytes.now self.old self.new result }
        ensures raises { IfErr result (RaisesWriting self.old self.new) }
    {
        let wrote = match port {
            Port::Out => self.rt.write_some(bytes),
            Port::Err => print_error(self.rt, bytes),
            Port::File => match &mut self.created {
                Some(file) => file.write(bytes),
                None => unreachable!(),
            },
        };
        match wrote {
            Ok(count) if count > 0 || bytes.is_empty() => Ok(count),
            _ => Err(self.write_fault()),
        }
    }
}

// Writes a whole text to standard error, and answers its length.
fn print_error<R: Eprint>(rt: &R, bytes: &[u8]) -> io::Result<usize>
    ensures { IfOk result (λ n. n ≡ length bytes.now) }
{
    match str::from_utf8(bytes) {
        Ok(text) => {
            rt.eprint(text)?;
            Ok(bytes.len())
        }
        Err(_) => Err(io::Error::from(ErrorKind::InvalidData)),
    }
}
