// A whole file is read, and a whole text is written, over any desk.
ghost use Rattle.std.specs.Prelude.{◌≡◌, ◌≤◌, ◌<◌, IsTrue, length};
ghost use Rattle.bs_desk.specs.Outside.{IsReading, MayWrite};
ghost use Rattle.bs_desk.specs.Whole.{Answers, Pieces, WritesAll};

use crate::desk::{Desk, DeskFault, Port};
use std::alloc::{AllocError, Global};

/// Why a file was not read whole.
#[derive(Clone, Copy, Debug, PartialEq, Eq, Drop)]
pub enum ReadAllFault {
    /// The desk refused `open` or `read`, and its count of read faults rose.
    Failed,
    /// There is no file of that name.
    Missing,
    /// The file has more bytes than this limit.
    TooBig(u64),
    /// Memory was wanting.
    Memory,
}

impl From<DeskFault> for ReadAllFault {
    ghost use Rattle.std.specs.Prelude.{◌≡◌};
    ghost use Rattle.bs_desk.specs.Whole.{passed_on};

    ghost from_gives = { λ fault given. given ≡ passed_on fault };

    fn from(fault: DeskFault) -> Self {
        match fault {
            DeskFault::Failed => ReadAllFault::Failed,
            DeskFault::Memory => ReadAllFault::Memory,
        }
    }
}

impl From<AllocError> for ReadAllFault {
    ghost use Rattle.std.specs.Prelude.{◌≡◌};
    ghost use Rattle.bs_desk.specs.declared.whole.ReadAllFault.TheVariants as fault;

    ghost from_gives = { λ _ given. given ≡ fault.Memory };

    fn from(_: AllocError) -> Self {
        ReadAllFault::Memory
    }
}

// How many bytes are asked for in one call.
const PIECE: usize = 65536;

/// All bytes of the file of that name, which are at most `limit`.
///
/// `Missing` comes exactly where `open` of this name answered false, `TooBig(limit)` exactly where
/// `limit + 1` bytes were read, and `Failed` only where the desk's count of read faults rose. After a
/// refusal the file may be opened and partly read; files, ports and the count of write faults are as
/// before, as they are after `Ok`.
pub fn read_all<D: Desk>(
    alloc: Global,
    desk: &mut D,
    name: &str,
    limit: u64,
) -> Result<Vec<u8>, ReadAllFault>
    ensures same { IsReading (D.world desk.old) (D.world desk.new) }
    ensures later { (D.world desk.old).read_faults ≤ (D.world desk.new).read_faults }
    ensures answer { Answers name.now limit (D.world desk.old) (D.world desk.new) result }
{
    if !desk.open(name)? {
        return Err(ReadAllFault::Missing);
    }
    let mut all = Vec::new(alloc);
    let mut room = [0; PIECE];
    while all.len() as u64 <= limit {
        let wanted = (limit - all.len() as u64).min(PIECE as u64 - 1) as usize + 1;
        if read_piece(desk, &mut room[..wanted], &mut all)? == 0 {
            return Ok(all);
        }
    }
    Err(ReadAllFault::TooBig(limit))
}

// Puts what one `read` gives behind the bytes that were read before, and answers its length.
fn read_piece<D: Desk>(
    desk: &mut D,
    room: &mut [u8],
    all: &mut Vec<u8>,
) -> Result<usize, ReadAllFault>
    requires is_open { IsTrue (D.world desk.old).is_open }
    requires some { 0 < length room.old }
    ensures later { (D.world desk.old).read_faults ≤ (D.world desk.new).read_faults }
    ensures piece { Pieces (length room.new) (D.world desk.old) (D.world desk.new) all.old.items all.new.items result }
{
    let count = desk.read(room)?;
    all.extend_from_slice(&room[..count])?;
    Ok(count)
}

/// Writes all bytes to the port, each time offering the whole rest.
///
/// After a refusal a front of the bytes was written, and not all of them. `Failed` comes only where the desk's count of
/// write faults rose. The count of read faults is as before, with every answer.
pub fn write_all<D: Desk>(desk: &mut D, port: Port, bytes: &[u8]) -> Result<(), DeskFault>
    requires { MayWrite port (D.world desk.old) }
    ensures reading { (D.world desk.new).read_faults ≡ (D.world desk.old).read_faults }
    ensures answer { WritesAll port bytes.now (D.world desk.old) (D.world desk.new) result }
{
    let mut at = 0;
    while at < bytes.len() {
        at += desk.write(port, &bytes[at..])?;
    }
    Ok(())
}
