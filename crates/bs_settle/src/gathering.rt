// Recomputing lines, and gathering what they answer.
ghost use Rattle.std.specs.Prelude.{◌≡◌, ◌++◌, [], IfOk, OnErr, OnOk, ℕ, List, length, map};
ghost use Rattle.bs_times.specs.Net.{Net as Links};
ghost use Rattle.bs_line.specs.declared.corrections.Correction.{Correction as Corrected};
ghost use Rattle.bs_line.specs.Line.{net_at};
ghost use Rattle.bs_settle.specs.Changes.{AreApart, AreOrdered};
ghost use Rattle.bs_settle.specs.Gathering.{AreRefreshed, IsRefreshed};
ghost use Rattle.bs_settle.specs.Lines.{AreLines, IsLineOf};

use bs_line::{Correction, Line};
use bs_tree::List;
use std::alloc::{AllocError, Global};
use std::collections::BTreeMap;

// Recomputes a line if it is dirty, and gathers what it answers. After want of memory both are as before.
fn refresh(
    alloc: Global,
    line: &mut Line<'_>,
    gathered: &mut Vec<Correction>,
) -> Result<(), AllocError>
    requires { IsLineOf (net_at line.old) line.old }
    ensures ok { OnOk result ((list : List Corrected) × (gathered.new.items ≡ gathered.old.items ++ list) × IsRefreshed (net_at line.old) line.old line.new list) }
    ensures line { OnErr result (line.new ≡ line.old) }
    ensures gathered { OnErr result (gathered.new.items ≡ gathered.old.items) }
{
    if line.is_dirty() {
        gathered.reserve(line.layout.outs.as_slice().len())?;
        let list = line.recompute(alloc)?;
        gathered.extend_from_slice(list.as_slice())?;
    }
    Ok(())
}

// Recomputes the lines that are dirty. After want of memory some of them are recomputed, and what they
// answered is gathered.
pub(crate) fn refresh_all(
    alloc: Global,
    lines: &mut Vec<Line<'_>>,
    gathered: &mut Vec<Correction>,
) -> Result<(), AllocError>
    requires lines { (net : Links) × (places : List ℕ) × AreLines net places lines.old.items }
    requires none { gathered.old.items ≡ [] }
    ensures some { (net : Links) (places : List ℕ) → AreLines net places lines.old.items → (n : ℕ) × AreRefreshed net n lines.old.items lines.new.items gathered.new.items }
    ensures all { OnOk result ((net : Links) (places : List ℕ) → AreLines net places lines.old.items → AreRefreshed net (length lines.old.items) lines.old.items lines.new.items gathered.new.items) }
{
    for place in 0..lines.len() {
        refresh(alloc, &mut lines[place], gathered)?;
    }
    Ok(())
}

// The corrections in the order of their messages.
pub(crate) fn in_order(
    alloc: Global,
    gathered: &[Correction],
) -> Result<List<Correction>, AllocError>
    requires { AreApart gathered.now }
    ensures { IfOk result (AreOrdered gathered.now) }
{
    let mut sorted = BTreeMap::new(alloc);
    for correction in gathered {
        sorted.insert((correction.mail.row, correction.mail.index), *correction)?;
    }
    let list = values(alloc, &sorted)?;
    Ok(list)
}

fn values(
    alloc: Global,
    sorted: &BTreeMap<(u32, u32), Correction>,
) -> Result<List<Correction>, AllocError>
    ensures { IfOk result (λ list. list ≡ map (λ e. e.1) sorted.now.entries) }
{
    let mut list = List::new(alloc);
    for entry in sorted {
        list.push(*entry.1)?;
    }
    Ok(list)
}
