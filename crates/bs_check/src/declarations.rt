// Whether the declarations of a program keep the rules, and what they declare.
ghost use Rattle.std.specs.Prelude.{◌≡◌, ℕ, ◌+◌, ◌-◌, ◌^◌, ◌<◌, ◌≤◌, All, IfOk, length, min, true, vec_len};
ghost use Rattle.bs_check.specs.Declarations.{are_counts, are_few_cells, are_few_params, are_lengths, declared_names, has_twice, is_length, is_within};
ghost use Rattle.bs_check.specs.Kinds.{entry_kind, kind_from, or_entry, var_kind};
ghost use Rattle.bs_check.specs.Refusal.{IsWhole};
ghost use Rattle.bs_check.specs.Table.{IsTable, kind_if, kind_in, name_at};
ghost use Rattle.bs_semantics.specs.Layout.{all_cells, width};

use crate::kind::Kind;
use bs_tree::{EntryDecl, NameId, Program, VarDecl};
use std::alloc::{AllocError, Global};

// Whether some name is declared twice.
pub(crate) fn declares_twice(alloc: Global, program: &Program) -> Result<bool, AllocError>
    requires { IsWhole program.now }
    ensures { IfOk result (λ twice. twice ≡ has_twice (declared_names program.now)) }
{
    let names = all_names(alloc, program)?;
    repeats(alloc, names.as_slice(), program.names.as_slice().len())
}

fn all_names(alloc: Global, program: &Program) -> Result<Vec<u32>, AllocError>
    ensures { IfOk result (λ names. names.items ≡ declared_names program.now) }
{
    let vars = program.vars.as_slice().iter().map(|var| var.name.0);
    let entries = program.entries.as_slice().iter();
    vars.chain(entries.map(|entry| entry.name.0)).collect(alloc)
}

// Whether a name stands twice among these, each of which is below the count.
fn repeats(alloc: Global, names: &[u32], count: usize) -> Result<bool, AllocError>
    requires { All (λ n. n < count) names.now }
    ensures { IfOk result (λ twice. twice ≡ has_twice names.now) }
{
    let mut seen = vec![in alloc; false; count]?;
    for name in names {
        let at = *name as usize;
        if seen[at] {
            return Ok(true);
        }
        seen[at] = true;
    }
    Ok(false)
}

// Whether each number of the declarations is within the limits.
#[tactic(auto, unfolding(crate::specs::Declarations::is_within))]
pub(crate) fn keeps_limits(program: &Program) -> bool
    ensures { result ≡ is_within program.now }
{
    has_counts(program)
        && has_few_params(program.entries.as_slice())
        && has_lengths(program.vars.as_slice())
        && has_few_cells(program)
}

#[tactic(auto, unfolding(crate::specs::Declarations::are_counts))]
fn has_counts(program: &Program) -> bool
    ensures { result ≡ are_counts program.now }
{
    program.chares >= 1
        && program.chares <= 65_536
        && program.vars.as_slice().len() <= 1_000
        && program.entries.as_slice().len() <= 1_000
}

#[tactic(auto, unfolding(crate::specs::Declarations::are_few_cells))]
fn has_few_cells(program: &Program) -> bool
    ensures { result ≡ are_few_cells program.now }
{
    let cells = cells_of(program.vars.as_slice());
    cells <= 65_536 && program.chares.saturating_mul(cells) <= 4_194_304
}

fn has_few_params(entries: &[EntryDecl]) -> bool
    ensures { result ≡ are_few_params entries.now }
{
    for entry in entries {
        if entry.params > 16 {
            return false;
        }
    }
    true
}

fn has_lengths(vars: &[VarDecl]) -> bool
    ensures { result ≡ are_lengths vars.now }
{
    for var in vars {
        if !has_length(var.cells) {
            return false;
        }
    }
    true
}

fn has_length(cells: Option<u64>) -> bool
    ensures { result ≡ is_length cells }
{
    match cells {
        Some(cells) => cells >= 1 && cells <= 65_536,
        None => true,
    }
}

// How many cells the variables have, or 2^64 - 1 where there are more.
pub(crate) fn cells_of(vars: &[VarDecl]) -> u64
    ensures { result ≡ min (all_cells vars.now) (2 ^ 64 - 1) }
{
    let mut cells: u64 = 0;
    for var in vars {
        cells = cells.saturating_add(width_of(var.cells));
    }
    cells
}

fn width_of(cells: Option<u64>) -> u64
    ensures { result ≡ width cells }
{
    match cells {
        Some(cells) => cells,
        None => 1,
    }
}

// The kind of each declared name, at the name's place.
pub(crate) fn kinds_of(alloc: Global, program: &Program) -> Result<Vec<Option<Kind>>, AllocError>
    requires whole { IsWhole program.now }
    requires within { is_within program.now ≡ true }
    ensures { IfOk result (λ kinds. IsTable program.now kinds.items) }
{
    let mut kinds = vec![in alloc; None; program.names.as_slice().len()]?;
    put_vars(&mut kinds, program.vars.as_slice());
    put_entries(&mut kinds, program.entries.as_slice());
    Ok(kinds)
}

fn put_vars(kinds: &mut Vec<Option<Kind>>, vars: &[VarDecl])
    requires names { All (λ v. v.name.0 < vec_len kinds.old) vars.now }
    requires cells { all_cells vars.now ≤ 65536 }
    ensures same { vec_len kinds.new ≡ vec_len kinds.old }
    ensures kinds { (n : ℕ) → kind_in kinds.new.items n ≡ or_entry (kind_in kinds.old.items n) (var_kind vars.now 0 (name_at n)) }
{
    let mut from: u32 = 0;
    for var in vars {
        put(kinds, var.name, kind_of_var(from, var.cells));
        from += width_of(var.cells) as u32;
    }
}

fn kind_of_var(from: u32, cells: Option<u64>) -> Kind
    requires { width cells ≤ 65536 }
    ensures { result ≡ kind_from from cells }
{
    match cells {
        Some(cells) => Kind::Array(from, cells as u32),
        None => Kind::Scalar(from),
    }
}

fn put_entries(kinds: &mut Vec<Option<Kind>>, entries: &[EntryDecl])
    requires names { All (λ e. e.name.0 < vec_len kinds.old) entries.now }
    requires few { length entries.now ≤ 1000 }
    requires params { All (λ e. e.params ≤ 16) entries.now }
    ensures same { vec_len kinds.new ≡ vec_len kinds.old }
    ensures kinds { (n : ℕ) → kind_in kinds.new.items n ≡ or_entry (kind_in kinds.old.items n) (entry_kind entries.now 0 (name_at n)) }
{
    let mut number: u32 = 0;
    for entry in entries {
        put(kinds, entry.name, Kind::Entry(number, entry.params as u32));
        number += 1;
    }
}

// Puts the kind at the name's place, unless there is one.
fn put(kinds: &mut Vec<Option<Kind>>, name: NameId, kind: Kind)
    requires { name.0 < vec_len kinds.old }
    ensures same { vec_len kinds.new ≡ vec_len kinds.old }
    ensures kinds { (n : ℕ) → kind_in kinds.new.items n ≡ or_entry (kind_in kinds.old.items n) (kind_if name kind n) }
{
    let at = name.0 as usize;
    if kinds[at].is_none() {
        kinds[at] = Some(kind);
    }
}
