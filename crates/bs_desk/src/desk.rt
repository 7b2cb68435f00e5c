// The outside, one small step a call: a file that is read, a file that is written, two streams.
ghost use Rattle.std.specs.Prelude.{IsTrue};

use std::alloc::AllocError;

/// Where bytes are written to: standard output, standard error, or the created file.
#[derive(Clone, Copy, Debug, PartialEq, Eq, Drop)]
pub enum Port {
    Out,
    Err,
    File,
}

/// Why a call of a desk did nothing.
#[derive(Clone, Copy, Debug, PartialEq, Eq, Drop)]
pub enum DeskFault {
    /// The outside refused. A count of faults rose in this call, or stands at 2^64 - 1.
    Failed,
    /// Memory was wanting.
    Memory,
}

impl From<AllocError> for DeskFault {
    ghost use Rattle.std.specs.Prelude.{◌≡◌};
    ghost use Rattle.bs_desk.specs.declared.desk.DeskFault.TheVariants.{Memory};

    ghost from_gives = { λ _ fault. fault ≡ Memory };

    fn from(_: AllocError) -> Self {
        DeskFault::Memory
    }
}

/// Files and streams, as a program sees them.
///
/// Contracts see a desk as an `Outside`: what it tells of its files, what was written to each port,
/// which file is opened and which is created, and two counts of faults, one of `open` and `read` and
/// one of `create` and `write`. The counts never fall. A call that is refused changes nothing but its
/// own count. No call changes whether the desk tells its files, nor whether it can fail.
pub trait Desk {
    ghost use Rattle.bs_desk.specs.Outside.{Outside, Opens, Reads, Creates, Writes, MayWrite};

    /// The outside as this desk tells it.
    ghost world: { Self → Outside };

    /// Begins the file of that name, and answers whether there is one.
    ///
    /// Where the desk tells its files, `false` comes exactly where it has none of that name. After
    /// `false` the file that was opened before stays opened. `Failed` comes only where the count of
    /// read faults rose.
    fn open(&mut self, name: &str) -> Result<bool, DeskFault>
        ensures { Opens name.now (world self.old) (world self.new) result };

    /// Takes bytes from the front of what is left of the opened file, puts them at the front of the
    /// room, and answers their number. 0 for a room that isn't empty is the end of the file.
    ///
    /// `Failed` comes only where the count of read faults rose.
    fn read(&mut self, room: &mut [u8]) -> Result<usize, DeskFault>
        requires { IsTrue (world self.old).is_open }
        ensures { Reads (world self.old) (world self.new) room.new result };

    /// Makes an empty file of that name, in place of one that is there. `Port::File` writes it from
    /// then on.
    ///
    /// `Failed` comes only where the count of write faults rose.
    fn create(&mut self, name: &str) -> Result<(), DeskFault>
        ensures { Creates name.now (world self.old) (world self.new) result };

    /// Writes a front of the bytes to the port, and answers its length: at least 1 where there are
    /// bytes. `Port::File` writes at the end of the created file.
    ///
    /// `Failed` comes only where the count of write faults rose.
    fn write(&mut self, port: Port, bytes: &[u8]) -> Result<usize, DeskFault>
        requires { MayWrite port (world self.old) }
        ensures { Writes port bytes.now (world self.old) (world self.new) result };
}
