// What the names of a program are declared as.
ghost use Rattle.std.specs.Prelude.{◌≡◌, slice_get, true};
ghost use Rattle.bs_check.specs.Declarations.{is_within};
ghost use Rattle.bs_check.specs.Refusal.{IsWhole};
ghost use Rattle.bs_check.specs.Kinds.{kind_of};
ghost use Rattle.bs_check.specs.Known.{is_array, is_entry, is_scalar, takes};
ghost use Rattle.bs_check.specs.Table.{IsTable, kind_in};
ghost use Rattle.bs_semantics.specs.Layout.{all_cells};

use crate::kind::Kind;
use bs_tree::{NameId, Program};

// A program with the kind of each name that is declared, at the name's place.
#[derive(Debug, Drop)]
pub(crate) struct Names {
    pub(crate) program: Program,
    pub(crate) kinds: Vec<Option<Kind>>,
    pub(crate) cells: u32,
    ghost is_table: { IsTable program kinds.items },
    ghost has_cells: { cells ≡ all_cells program.vars },
    ghost is_whole: { IsWhole program },
    ghost is_within: { is_within program ≡ true },
}

impl Names {
    pub(crate) fn kind(&self, name: NameId) -> Option<Kind>
        ensures { result ≡ kind_of self.now.program name }
    {
        kind_at(self.kinds.as_slice(), name.0 as usize)
    }

    pub(crate) fn is_scalar(&self, name: NameId) -> bool
        ensures { result ≡ is_scalar self.now.program name }
    {
        matches!(self.kind(name), Some(Kind::Scalar(_)))
    }

    pub(crate) fn is_array(&self, name: NameId) -> bool
        ensures { result ≡ is_array self.now.program name }
    {
        matches!(self.kind(name), Some(Kind::Array(_, _)))
    }

    pub(crate) fn is_entry(&self, name: NameId) -> bool
        ensures { result ≡ is_entry self.now.program name }
    {
        matches!(self.kind(name), Some(Kind::Entry(_, _)))
    }

    // Whether the entry, if it is one, has so many parameters.
    pub(crate) fn takes(&self, name: NameId, count: usize) -> bool
        ensures { result ≡ takes self.now.program name count }
    {
        match self.kind(name) {
            Some(Kind::Entry(_, params)) => params as usize == count,
            _ => true,
        }
    }
}

// What the list has of the name at this place.
pub(crate) fn kind_at(kinds: &[Option<Kind>], at: usize) -> Option<Kind>
    ensures { result ≡ kind_in kinds.now at }
{
    match entry_at(kinds, at) {
        Some(kind) => kind,
        None => None,
    }
}

pub(crate) fn entry_at(kinds: &[Option<Kind>], at: usize) -> Option<Option<Kind>>
    ensures { result ≡ slice_get kinds.now at }
{
    kinds.get(at).copied()
}
