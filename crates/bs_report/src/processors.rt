// What each processor did.
ghost use Rattle.std.specs.Prelude.{◌≡◌, ℕ, List, ◌++◌, ◌≤◌, ◌==◌, IfOk, OnOk, length, string_bytes, unwrap_or};
ghost use Rattle.std.specs.BTreeMap.{get};
ghost use Rattle.std.specs.List.{All, flat_map, list_any};
ghost use Rattle.std.specs.List.Sorted.{IsStrictlyIncreasing};
ghost use Rattle.bs_log.specs.declared.outcome.OutRow.{OutRow};
ghost use Rattle.bs_log.specs.Reportable.{IsTimed};
ghost use Rattle.std.specs.Ordering.{nat_cmp};
ghost use Rattle.bs_report.specs.Report.{processors_of};
ghost use Rattle.bs_report.specs.Loads.{no_load, loads_of, IsShare, load_line};

use bs_log::OutRow;
use std::alloc::{AllocError, Global};
use std::collections::BTreeMap;
use std::fmt::Write;

/// How many blocks a processor ran, and how many ticks they took together.
#[derive(Clone, Copy, Debug, Drop)]
pub(crate) struct Load {
    blocks: u64,
    busy: u128,
}

/// A law of the report: its processors rise, so each stands there once, and they are those on which
/// a block ran.
pub fn each_processor_once()
    ensures rises { (rows : List OutRow) → IsStrictlyIncreasing (processors_of rows) }
    ensures exact { (rows : List OutRow) (p : ℕ) →
        list_any (λ q. q == p) (processors_of rows) ≡
        list_any (λ row. row.processor == p) rows }
{}

/// What each processor that has a block did.
pub(crate) fn loads(alloc: Global, rows: &[OutRow]) -> Result<BTreeMap<u32, Load>, AllocError>
    requires small { length rows.now ≤ 262144 }
    requires timed { All IsTimed rows.now }
    ensures { IfOk result (λ loads. loads.entries ≡ loads_of rows.now) }
{
    let mut loads = BTreeMap::new(alloc);
    for row in rows {
        let before = load_of(&loads, row.processor);
        let load = Load {
            blocks: before.blocks + 1,
            busy: before.busy + (row.end - row.start),
        };
        loads.insert(row.processor, load)?;
    }
    Ok(loads)
}

// What a processor did so far.
fn load_of(loads: &BTreeMap<u32, Load>, processor: u32) -> Load
    ensures { result ≡ unwrap_or (get nat_cmp loads.now processor) no_load }
{
    let none = Load { blocks: 0, busy: 0 };
    loads.get(&processor).copied().unwrap_or(none)
}

/// Writes the line of each processor.
pub(crate) fn write_loads(
    text: &mut String,
    loads: &BTreeMap<u32, Load>,
    span: u128,
) -> Result<(), AllocError>
    requires { All (IsShare span) loads.now.entries }
    ensures { OnOk result (string_bytes text.new ≡
        string_bytes text.old ++ flat_map (load_line span) loads.now.entries) }
{
    for (processor, load) in loads {
        write_load(text, *processor, *load, span)?;
    }
    Ok(())
}

fn write_load(text: &mut String, processor: u32, load: Load, span: u128) -> Result<(), AllocError>
    requires { IsShare span (processor, load) }
    ensures { OnOk result (string_bytes text.new ≡
        string_bytes text.old ++ load_line span (processor, load)) }
{
    let share = 10_000 * load.busy / span;
    writeln!(
        text,
        "proc {processor} blocks {} busy {} use {share}",
        load.blocks, load.busy
    )
}
