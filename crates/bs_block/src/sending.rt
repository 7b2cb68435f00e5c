// What a send evaluates and tests.
ghost use Rattle.std.specs.Prelude.{◌≡◌, ◌*◌, ◌^◌, ◌<◌, length, IsTrue, map};
ghost use Rattle.bs_check.specs.Known.{all_true, is_entry, is_known, is_known_if_given, takes};
ghost use Rattle.bs_semantics.specs.Acts.{bytes_value as value_of_bytes, upto, values_of};
ghost use Rattle.bs_semantics.specs.Value.{value_of};
ghost use Rattle.bs_block.specs.Env.{MadeFor};
ghost use Rattle.bs_block.specs.Progress.{Leaves, tally_of};
ghost use Rattle.bs_block.specs.Sending.{IsParcel, parcel_value, sent};
ghost use Rattle.bs_block.specs.Values.{AreValues};

use crate::cells::entry_number;
use crate::done::{BlockFault, Send};
use crate::draft::Draft;
use crate::progress::Progress;
use bs_check::Accepted;
use bs_log::{Key, Sent, TrapKind};
use bs_tree::{Expr, List, NameId};
use std::alloc::Global;

// The greatest length of a message in bytes.
const BYTES: u64 = 1 << 30;

// A number from 0 to the limit, or this trap.
pub(crate) fn up_to(limit: u64, kind: TrapKind, value: i64) -> Result<u64, TrapKind>
    ensures { result ≡ upto limit kind value }
{
    match u64::try_from(value) {
        Ok(number) if number <= limit => Ok(number),
        _ => Err(kind),
    }
}

// The values of the arguments, from left to right.
fn values(
    alloc: Global,
    accepted: &Accepted,
    args: &[Expr],
    draft: &Draft,
) -> Result<List<i64>, BlockFault>
    requires known { IsTrue (all_true (map (is_known accepted.now.program) args.now)) }
    requires made { MadeFor accepted.now.program draft.now.now }
    ensures { AreValues (values_of (map (value_of accepted.now.program draft.now.now.this) args.now) draft.now.now.cells) result }
{
    let mut values = List::new(alloc);
    for expr in args {
        values.push(draft.value(accepted, expr)?)?;
    }
    Ok(values)
}

// The number of bytes: what is given, or 8 for each argument.
fn bytes_value(
    accepted: &Accepted,
    given: &Option<Expr>,
    args: usize,
    draft: &Draft,
) -> Result<i64, TrapKind>
    requires few { args < 2 ^ 32 }
    requires known { IsTrue (is_known_if_given accepted.now.program given.now) }
    requires made { MadeFor accepted.now.program draft.now.now }
    ensures { result ≡ value_of_bytes accepted.now.program draft.now.now.this given.now args draft.now.now.cells }
{
    match given {
        Some(expr) => draft.value(accepted, expr),
        None => Ok(8 * args as i64),
    }
}

// The message that a send puts together, with its arguments, at this offset.
fn message(
    alloc: Global,
    accepted: &Accepted,
    entry: NameId,
    reference: &Expr,
    args: &[Expr],
    target: &Expr,
    bytes: &Option<Expr>,
    offset: u64,
    draft: &Draft,
) -> Result<Send, BlockFault>
    requires entry { IsTrue (is_entry accepted.now.program entry) }
    requires counted { IsTrue (takes accepted.now.program entry (length args.now)) }
    requires reference { IsTrue (is_known accepted.now.program reference.now) }
    requires args { IsTrue (all_true (map (is_known accepted.now.program) args.now)) }
    requires target { IsTrue (is_known accepted.now.program target.now) }
    requires bytes { IsTrue (is_known_if_given accepted.now.program bytes.now) }
    requires made { MadeFor accepted.now.program draft.now.now }
    ensures { IsParcel (parcel_value accepted.now.program draft.now.now.this entry reference.now args.now target.now bytes.now offset draft.now.now.cells) result }
{
    let number = entry_number(accepted, entry, args.len());
    let reference = draft.value(accepted, reference)?;
    let values = values(alloc, accepted, args, draft)?;
    let target = draft.value(accepted, target)?;
    let bytes = bytes_value(accepted, bytes, args.len(), draft)?;
    let to = up_to(u64::from(accepted.chares() - 1), TrapKind::Target, target)?;
    let bytes = up_to(BYTES, TrapKind::BytesRange, bytes)?;
    let key = Key {
        entry: number,
        reference,
    };
    let sent = Sent {
        to: to as u32,
        key,
        bytes,
        offset,
    };
    Ok(Send { sent, args: values })
}

// Sends a message, at the cost so far.
pub(crate) fn send(
    alloc: Global,
    accepted: &Accepted,
    entry: NameId,
    reference: &Expr,
    args: &[Expr],
    target: &Expr,
    bytes: &Option<Expr>,
    draft: &Draft,
    progress: &mut Progress,
) -> Result<(), BlockFault>
    requires entry { IsTrue (is_entry accepted.now.program entry) }
    requires counted { IsTrue (takes accepted.now.program entry (length args.now)) }
    requires reference { IsTrue (is_known accepted.now.program reference.now) }
    requires args { IsTrue (all_true (map (is_known accepted.now.program) args.now)) }
    requires target { IsTrue (is_known accepted.now.program target.now) }
    requires bytes { IsTrue (is_known_if_given accepted.now.program bytes.now) }
    requires made { MadeFor accepted.now.program draft.now.now }
    ensures { Leaves (sent accepted.now.program draft.now.now.this entry reference.now args.now target.now bytes.now (tally_of draft.now.now progress.old)) (tally_of draft.now.now progress.new) result }
{
    let offset = progress.cost;
    let message = message(
        alloc, accepted, entry, reference, args, target, bytes, offset, draft,
    )?;
    progress.sends.push(message)?;
    Ok(())
}
