// Reading a machine file.
ghost use Rattle.std.specs.Prelude.{◌≡◌, ◌≢◌, ◌≤◌, IfOk, IfErr, IsTrue, Ok, Err, None, Some};
ghost use Rattle.std.specs.List.{find};
ghost use Rattle.toml.specs.View.{table_view};
ghost use Rattle.bs_net.specs.Home.{is_within};
ghost use Rattle.bs_net.specs.Range.{are_sizes};
ghost use Rattle.bs_net.specs.Torus.{processors_of};
ghost use Rattle.bs_machine.specs.File.{root_of, has_stray_list, keys_known, is_missing, keys_given, sizes_at, processors_at, place_at, speed_at, costs_at, values_in, machine_in};
ghost use Rattle.bs_machine.specs.Keys.{all_keys};
ghost use Rattle.bs_machine.specs.Machine.{machine_view, speed_view, costs_view};
ghost use Rattle.bs_machine.specs.Values.{is_listed};
ghost use Rattle.bs_machine.specs.declared.fault.MachineFault.TheVariants.{Memory, NotToml};

use crate::fault::MachineFault;
use crate::key::{MachineKey, all};
use crate::machine::{Machine, Speed};
use crate::names::knows_tables;
use crate::values::{list, number, says, small_number, value};
use bs_net::{Costs, Place, Torus};
use bs_tree::List;
use std::alloc::Global;
use toml::Table;

/// The machine of a file.
///
/// `NotToml` comes exactly where `toml` refuses the bytes for another cause than memory;
/// `UnknownKey`, `Missing` and `OutOfRange` come in this order, each for the first key by order
/// (`docs/machine-file.md`).
pub fn read_machine(alloc: Global, bytes: &[u8]) -> Result<Machine, MachineFault>
    ensures ok { IfOk result (λ machine. machine_in bytes.now ≡ Ok (machine_view machine)) }
    ensures err { IfErr result (λ fault. fault ≢ Memory → machine_in bytes.now ≡ Err fault) }
{
    let root = read_root(alloc, bytes)?;
    test_keys(&root)?;
    test_missing(&root)?;
    machine_from(alloc, &root)
}

fn read_root(alloc: Global, bytes: &[u8]) -> Result<Table, MachineFault>
    ensures ok { IfOk result (λ root. root_of bytes.now ≡ Some (table_view root)) }
    ensures err { IfErr result (λ fault. fault ≢ Memory → (fault ≡ NotToml) × (root_of bytes.now ≡ None)) }
{
    match toml::table_from_slice(alloc, bytes) {
        Ok(table) => Ok(table),
        Err(fault) => {
            if fault.is_memory() {
                Err(MachineFault::Memory)
            } else {
                Err(MachineFault::NotToml)
            }
        }
    }
}

fn is_placed_by_list(root: &Table) -> bool
    ensures { result ≡ is_listed (table_view root.now) }
{
    says(root, MachineKey::PlaceKind, "list")
}

fn has_list_beside_another_kind(root: &Table) -> bool
    ensures { result ≡ has_stray_list (table_view root.now) }
{
    value(root, MachineKey::PlaceList).is_some()
        && value(root, MachineKey::PlaceKind).is_some()
        && !is_placed_by_list(root)
}

fn test_keys(root: &Table) -> Result<(), MachineFault>
    ensures { result ≡ keys_known (table_view root.now) }
{
    if knows_tables(root) && !has_list_beside_another_kind(root) {
        Ok(())
    } else {
        Err(MachineFault::UnknownKey)
    }
}

fn test_missing(root: &Table) -> Result<(), MachineFault>
    ensures { result ≡ keys_given (table_view root.now) }
{
    for key in &all() {
        if misses(root, *key) {
            return Err(MachineFault::Missing(*key));
        }
    }
    Ok(())
}

fn misses(root: &Table, key: MachineKey) -> bool
    ensures { result ≡ is_missing key (table_view root.now) }
{
    value(root, key).is_none() && (key != MachineKey::PlaceList || is_placed_by_list(root))
}

fn machine_from(alloc: Global, root: &Table) -> Result<Machine, MachineFault>
    ensures ok { IfOk result (λ machine. values_in (table_view root.now) ≡ Ok (machine_view machine)) }
    ensures err { IfErr result (λ fault. fault ≢ Memory → values_in (table_view root.now) ≡ Err fault) }
{
    let sizes = ring_sizes(alloc, root)?;
    let per_node = small_number(root, MachineKey::TorusPerNode, 1, 65536)?;
    let torus = torus_of(sizes, per_node)?;
    let place = place_on(alloc, root, torus.processors())?;
    let speed = speed_of(root)?;
    let costs = costs_of(root)?;
    Ok(Machine {
        torus,
        place,
        speed,
        costs,
    })
}

fn speed_of(root: &Table) -> Result<Speed, MachineFault>
    ensures ok { IfOk result (λ speed. speed_at (table_view root.now) ≡ Ok (speed_view speed)) }
    ensures err { IfErr result (λ fault. speed_at (table_view root.now) ≡ Err fault) }
{
    let num = small_number(root, MachineKey::SpeedNum, 1, 65535)?;
    let den = small_number(root, MachineKey::SpeedDen, 1, 65535)?;
    Ok(Speed { num, den })
}

fn costs_of(root: &Table) -> Result<Costs, MachineFault>
    ensures ok { IfOk result (λ costs. costs_at (table_view root.now) ≡ Ok (costs_view costs)) }
    ensures err { IfErr result (λ fault. costs_at (table_view root.now) ≡ Err fault) }
{
    let own = number(root, MachineKey::LatencySelf, 1, 274_877_906_944)?;
    let local = number(root, MachineKey::LatencyLocal, 1, 274_877_906_944)?;
    let base = number(root, MachineKey::LatencyBase, 1, 274_877_906_944)?;
    let hop = number(root, MachineKey::LatencyHop, 0, 4_194_304)?;
    let num = small_number(root, MachineKey::LatencyBytesNum, 0, 256)?;
    let den = small_number(root, MachineKey::LatencyBytesDen, 1, 65535)?;
    Ok(Costs {
        own,
        local,
        base,
        hop,
        num,
        den,
    })
}

fn ring_sizes(alloc: Global, root: &Table) -> Result<Vec<u32>, MachineFault>
    ensures ok { IfOk result (λ sizes. (sizes_at (table_view root.now) ≡ Ok sizes.items) × IsTrue (are_sizes sizes.items)) }
    ensures err { IfErr result (λ fault. fault ≢ Memory → sizes_at (table_view root.now) ≡ Err fault) }
{
    match list(alloc, root, MachineKey::TorusSizes, 1, 65536)? {
        Some(sizes) if 1 <= sizes.len() && sizes.len() <= 6 => Ok(sizes),
        _ => Err(MachineFault::OutOfRange(MachineKey::TorusSizes, None)),
    }
}

// The torus of numbers that are in their own ranges.
fn torus_of(sizes: Vec<u32>, per_node: u32) -> Result<Torus, MachineFault>
    requires sizes { IsTrue (are_sizes sizes.items) }
    requires per_node { (1 ≤ per_node) × (per_node ≤ 65536) }
    ensures ok { IfOk result (λ torus. (torus.sizes ≡ sizes.items) × (torus.per_node ≡ per_node)) }
    ensures processors { IfOk result (λ torus. processors_at sizes.items per_node ≡ Ok (processors_of torus)) }
    ensures err { IfErr result (λ fault. processors_at sizes.items per_node ≡ Err fault) }
{
    match Torus::new(List::from_vec(sizes), per_node) {
        Ok(torus) => Ok(torus),
        Err(_) => Err(MachineFault::OutOfRange(MachineKey::TorusPerNode, None)),
    }
}

fn place_on(alloc: Global, root: &Table, processors: u32) -> Result<Place, MachineFault>
    requires { 1 ≤ processors }
    ensures ok { IfOk result (λ place. (place_at processors (table_view root.now) ≡ Ok place) × IsTrue (is_within place processors)) }
    ensures err { IfErr result (λ fault. fault ≢ Memory → place_at processors (table_view root.now) ≡ Err fault) }
{
    if says(root, MachineKey::PlaceKind, "block") {
        return Ok(Place::Block);
    }
    if says(root, MachineKey::PlaceKind, "cycle") {
        return Ok(Place::Cycle);
    }
    if !is_placed_by_list(root) {
        return Err(MachineFault::OutOfRange(MachineKey::PlaceKind, None));
    }
    match list(alloc, root, MachineKey::PlaceList, 0, processors - 1)? {
        Some(homes) => Ok(Place::Listed(List::from_vec(homes))),
        None => Err(MachineFault::OutOfRange(MachineKey::PlaceList, None)),
    }
}
