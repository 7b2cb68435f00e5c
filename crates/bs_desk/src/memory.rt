// A desk in memory, which tells its files.
ghost use Rattle.std.specs.Prelude.{◌≡◌, ◌≢◌, ◌≤◌, [], Err, IfOk, IsTrue, OnErr, OnOk, length, min, option_map, unwrap_or};
ghost use Rattle.bs_desk.specs.Outside.{MayWrite, Opens, Reads, Creates, Writes, bytes_written, contents_of, with_contents};
ghost use Rattle.bs_desk.specs.InMemory.{empty_desk, to_fail};
ghost use Rattle.bs_desk.specs.Planned.{FailsWhere, counted, is_due};

use crate::desk::{Desk, DeskFault, Port};
use crate::plans::{Op, Plan};
use crate::versions::{Version, append, bytes_of, newest, place_after_push, push};
use std::alloc::{AllocError, Global};
use std::marker::Model;

// The place of the version that is opened, and the part of it that is left to read.
#[derive(Clone, Copy)]
struct Opened {
    place: usize,
    from: usize,
    end: usize,
}

/// A desk whose files and streams are kept in memory.
///
/// It tells its files. A call answers `Failed` exactly where `fail` names it, and the desk can fail
/// exactly where a call is named. Each call of `read` and `write` passes as many bytes as it can, but
/// at most `chunk`. What is left of an opened file stays as it was when the file was opened, whatever
/// is written or created after that.
#[derive(Drop)]
pub struct MemoryDesk {
    alloc: Global,
    chunk: usize,
    files: Vec<Version>,
    opened: Option<Opened>,
    created: Option<usize>,
    out: Vec<u8>,
    err: Vec<u8>,
    file: Vec<u8>,
    found: bool,
    taken: u64,
    can_fail: bool,
    read_faults: u64,
    write_faults: u64,
    opens: Plan,
    reads: Plan,
    creates: Plan,
    writes: Plan,
}

impl Model for MemoryDesk {
    ghost use Rattle.bs_desk.specs.InMemory.{InMemory, in_memory_code};

    ghost Value = { InMemory };

    ghost coded = { in_memory_code };

    ghost use Rattle.bs_desk.specs.Memory.{IsSound, seen_as};

    ghost view = { seen_as };

    ghost invariant = { IsSound };
}

impl MemoryDesk {
    /// A desk with no files, on which no call was made yet. It takes no memory.
    pub fn new(alloc: Global, chunk: usize) -> MemoryDesk
        requires { 1 ≤ chunk }
        ensures { result ≡ empty_desk chunk }
    {
        MemoryDesk {
            alloc,
            chunk,
            files: Vec::new(alloc),
            opened: None,
            created: None,
            out: Vec::new(alloc),
            err: Vec::new(alloc),
            file: Vec::new(alloc),
            found: true,
            taken: 0,
            can_fail: false,
            read_faults: 0,
            write_faults: 0,
            opens: Plan::new(alloc),
            reads: Plan::new(alloc),
            creates: Plan::new(alloc),
            writes: Plan::new(alloc),
        }
    }

    /// Makes these bytes the contents of the file of that name, whether or not there was one. The
    /// created file stays the created one, also where it gets these contents.
    pub fn put_file(&mut self, name: &str, bytes: &[u8]) -> Result<(), AllocError>
        ensures ok { OnOk result (self.new ≡ record self.old { outside = with_contents name.now bytes.now self.old.outside }) }
        ensures err { OnErr result (self.new ≡ self.old) }
    {
        let name = name.as_bytes();
        let created = place_after_push(&self.files, self.created, name);
        push(self.alloc, &mut self.files, name, bytes)?;
        self.created = created;
        Ok(())
    }

    /// Lets the `nth` call of that kind answer `Failed`, and do nothing but raise its count of faults.
    /// Calls of a kind are counted from 1, from the first that is made of the desk, whatever they
    /// answer, and the count stands still at 2^64 - 1. So 0, and a call that was made before, name
    /// none. From then on the desk can fail.
    pub fn fail(&mut self, op: Op, nth: u64) -> Result<(), AllocError>
        ensures ok { OnOk result (self.new ≡ to_fail op nth self.old) }
        ensures err { OnErr result (self.new ≡ self.old) }
    {
        match op {
            Op::Open => self.opens.add(nth)?,
            Op::Read => self.reads.add(nth)?,
            Op::Create => self.creates.add(nth)?,
            Op::Write => self.writes.add(nth)?,
        }
        self.can_fail = true;
        Ok(())
    }

    /// The contents of the file of that name, or `None` where there is none. It takes no memory.
    pub fn file(&self, name: &str) -> Option<&[u8]>
        ensures { option_map (λ bytes. bytes.now) result ≡ contents_of name.now self.now.outside }
    {
        let place = newest(&self.files, name.as_bytes())?;
        Some(bytes_of(&self.files, place))
    }

    /// All bytes that were written to the port. It takes no memory.
    pub fn written(&self, port: Port) -> &[u8]
        ensures { result.now ≡ bytes_written port self.now.outside }
    {
        match port {
            Port::Out => &self.out,
            Port::Err => &self.err,
            Port::File => &self.file,
        }
    }

    /// The counts of read faults and of write faults. It takes no memory.
    pub fn faults(&self) -> (u64, u64)
        ensures reading { result.0 ≡ self.now.outside.read_faults }
        ensures writing { result.1 ≡ self.now.outside.write_faults }
    {
        (self.read_faults, self.write_faults)
    }
}

impl Desk for MemoryDesk {
    ghost world = { λ m. m.outside };

    /// It takes no memory.
    fn open(&mut self, name: &str) -> Result<bool, DeskFault>
        ensures opens { Opens name.now self.old.outside self.new.outside result }
        ensures fails { FailsWhere (is_due self.old.opens) result }
        ensures calls { self.new ≡ record self.old { outside = self.new.outside; opens = counted self.old.opens } }
        ensures no_memory { result ≢ Err DeskFault.Memory }
    {
        if self.opens.fails_next() {
            self.read_faults = self.read_faults.saturating_add(1);
            return Err(DeskFault::Failed);
        }
        self.taken = 0;
        match newest(&self.files, name.as_bytes()) {
            Some(place) => {
                let end = bytes_of(&self.files, place).len();
                self.opened = Some(Opened {
                    place,
                    from: 0,
                    end,
                });
                self.found = true;
                Ok(true)
            }
            None => {
                self.found = false;
                Ok(false)
            }
        }
    }

    /// It takes no memory.
    fn read(&mut self, room: &mut [u8]) -> Result<usize, DeskFault>
        requires { IsTrue self.old.outside.is_open }
        ensures reads { Reads self.old.outside self.new.outside room.new result }
        ensures fails { FailsWhere (is_due self.old.reads) result }
        ensures calls { self.new ≡ record self.old { outside = self.new.outside; reads = counted self.old.reads } }
        ensures count { IfOk result (λ n. n ≡ min (length room.new) (min self.old.chunk (length (unwrap_or self.old.outside.rest [])))) }
        ensures no_memory { result ≢ Err DeskFault.Memory }
    {
        if self.reads.fails_next() {
            self.read_faults = self.read_faults.saturating_add(1);
            return Err(DeskFault::Failed);
        }
        let Some(opened) = self.opened else {
            unreachable!()
        };
        let count = room.len().min(self.chunk).min(opened.end - opened.from);
        let bytes = bytes_of(&self.files, opened.place);
        room[..count].copy_from_slice(&bytes[opened.from..opened.from + count]);
        self.opened = Some(Opened {
            place: opened.place,
            from: opened.from + count,
            end: opened.end,
        });
        self.taken = self.taken.saturating_add(count as u64);
        Ok(count)
    }

    fn create(&mut self, name: &str) -> Result<(), DeskFault>
        ensures creates { Creates name.now self.old.outside self.new.outside result }
        ensures fails { FailsWhere (is_due self.old.creates) result }
        ensures calls { self.new ≡ record self.old { outside = self.new.outside; creates = counted self.old.creates } }
    {
        if self.creates.fails_next() {
            self.write_faults = self.write_faults.saturating_add(1);
            return Err(DeskFault::Failed);
        }
        let place = self.files.len();
        push(self.alloc, &mut self.files, name.as_bytes(), b"")?;
        self.created = Some(place);
        Ok(())
    }

    fn write(&mut self, port: Port, bytes: &[u8]) -> Result<usize, DeskFault>
        requires { MayWrite port self.old.outside }
        ensures writes { Writes port bytes.now self.old.outside self.new.outside result }
        ensures fails { FailsWhere (is_due self.old.writes) result }
        ensures calls { self.new ≡ record self.old { outside = self.new.outside; writes = counted self.old.writes } }
        ensures count { IfOk result (λ n. n ≡ min (length bytes.now) self.old.chunk) }
    {
        if self.writes.fails_next() {
            self.write_faults = self.write_faults.saturating_add(1);
            return Err(DeskFault::Failed);
        }
        let count = bytes.len().min(self.chunk);
        let front = &bytes[..count];
        match port {
            Port::Out => self.out.extend_from_slice(front)?,
            Port::Err => self.err.extend_from_slice(front)?,
            Port::File => {
                let Some(place) = self.created else {
                    unreachable!()
                };
                append(&mut self.files, place, &mut self.file, front)?;
            }
        }
        Ok(count)
    }
}
