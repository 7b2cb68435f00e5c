// Where the variables and entries of an accepted program stand.
ghost use Rattle.std.specs.Prelude.{◌≡◌, ◌<◌, ◌≤◌, ◌+◌, ◌^◌, IfOk, IsTrue};
ghost use Rattle.bs_check.specs.Known.{is_array, is_entry, is_scalar, takes};
ghost use Rattle.bs_semantics.specs.Layout.{all_cells, entry_of, place_of};
ghost use Rattle.bs_semantics.specs.Value.{indexed};
ghost use Rattle.bs_block.specs.Cell.{IsCellAt};

use bs_check::{Accepted, Kind};
use bs_log::TrapKind;
use bs_tree::NameId;

// The cell of a scalar.
pub(crate) fn scalar_cell(accepted: &Accepted, name: NameId) -> u32
    requires { IsTrue (is_scalar accepted.now.program name) }
    ensures place { place_of accepted.now.program name ≡ record { from = result; cells = 1 } }
    ensures within { result < all_cells accepted.now.program.vars }
{
    match accepted.kind(name) {
        Kind::Scalar(cell) => cell,
        _ => unreachable!(),
    }
}

// The first cell of an array, and how many it has.
pub(crate) fn array_cells(accepted: &Accepted, name: NameId) -> (u32, u32)
    requires { IsTrue (is_array accepted.now.program name) }
    ensures place { place_of accepted.now.program name ≡ record { from = result.0; cells = result.1 } }
    ensures within { result.0 + result.1 ≤ all_cells accepted.now.program.vars }
{
    match accepted.kind(name) {
        Kind::Array(from, cells) => (from, cells),
        _ => unreachable!(),
    }
}

// The number of an entry that takes so many arguments. They are few, since the number of its
// parameters is.
pub(crate) fn entry_number(accepted: &Accepted, name: NameId, args: usize) -> u32
    requires entry { IsTrue (is_entry accepted.now.program name) }
    requires counted { IsTrue (takes accepted.now.program name args) }
    ensures number { entry_of accepted.now.program name ≡ result }
    ensures few { args < 2 ^ 32 }
{
    match accepted.kind(name) {
        Kind::Entry(number, _) => number,
        _ => unreachable!(),
    }
}

// An index into so many cells, counted from 0.
fn index_below(cells: u32, index: i64) -> Result<u32, TrapKind>
    ensures value { result ≡ indexed cells index }
    ensures below { IfOk result (λ i. i < cells) }
{
    match u32::try_from(index) {
        Ok(index) if index < cells => Ok(index),
        _ => Err(TrapKind::Index),
    }
}

// The cell of an array at an index that counts from 0.
pub(crate) fn cell_at(accepted: &Accepted, name: NameId, index: i64) -> Result<u32, TrapKind>
    requires { IsTrue (is_array accepted.now.program name) }
    ensures { IsCellAt accepted.now.program name index result }
{
    let (from, cells) = array_cells(accepted, name);
    let index = index_below(cells, index)?;
    prove!(index < accepted.cells());
    Ok(from + index)
}
