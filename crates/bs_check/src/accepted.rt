// A program that was accepted.
ghost use Rattle.std.specs.Prelude.{◌≡◌, ◌-◌, ◌≤◌, IsSome, None, Some, slice_get};
ghost use Rattle.bs_check.specs.Refusal.{IsWhole, refusal};
ghost use Rattle.bs_check.specs.Accepted.{HasKinds};
ghost use Rattle.bs_check.specs.Kinds.{IsPlaced, kind_of};
ghost use Rattle.bs_check.specs.Numbers.{ends_of};
ghost use Rattle.bs_tree.specs.Count.{statements_in};
ghost use Rattle.bs_semantics.specs.Layout.{all_cells};

use crate::kind::Kind;
use crate::names::{Names, entry_at};
use bs_tree::{NameId, Program};

/// A program that keeps the rules of the language, with what its names are declared as and the numbers of
/// its statements.
#[derive(Debug, Drop)]
pub struct Accepted {
    program: Program,
    kinds: Vec<Option<Kind>>,
    cells: u32,
    ends: Vec<u32>,
    ghost has_kinds: { HasKinds program kinds.items },
    ghost has_cells: { cells ≡ all_cells program.vars },
    ghost has_ends: { ends.items ≡ ends_of program },
    ghost is_kept: { refusal program ≡ None },
    ghost is_whole: { IsWhole program },
    ghost has_chares: { (1 ≤ program.chares) × (program.chares ≤ 65536) },
}

impl Accepted {
    ghost use Rattle.std.specs.Prelude.{◌≡◌, ◌-◌, ◌≤◌, IsSome, None, Some, slice_get};
    ghost use Rattle.bs_check.specs.Kinds.{IsPlaced, kind_of};
    ghost use Rattle.bs_check.specs.Numbers.{ends_of};
    ghost use Rattle.bs_check.specs.Refusal.{IsWhole, refusal};
    ghost use Rattle.bs_tree.specs.Count.{statements_in};
    ghost use Rattle.bs_semantics.specs.Layout.{all_cells};

    /// The program, which breaks no rule, has at most 10,000 statements and 1 to 65,536 chares. It takes
    /// no memory.
    pub fn program(&self) -> &Program
        ensures value { result.now ≡ self.now.program }
        ensures kept { refusal self.now.program ≡ None }
        ensures whole { IsWhole self.now.program }
        ensures chares { (1 ≤ self.now.program.chares) × (self.now.program.chares ≤ 65536) }
    {
        &self.program
    }

    /// What a declared name is declared as. It takes no memory.
    pub fn kind(&self, name: NameId) -> Kind
        requires { IsSome (kind_of self.now.program name) }
        ensures value { kind_of self.now.program name ≡ Some result }
        ensures placed { IsPlaced self.now.program name result }
    {
        match entry_at(self.kinds.as_slice(), name.0 as usize) {
            Some(Some(kind)) => kind,
            _ => unreachable!(),
        }
    }

    /// How many cells all variables have together. It takes no memory.
    pub fn cells(&self) -> u32
        ensures { result ≡ all_cells self.now.program.vars }
    {
        self.cells
    }

    /// How many chares the program has, at most 65,536. It takes no memory.
    pub fn chares(&self) -> u32
        ensures { result ≡ self.now.program.chares }
    {
        self.program.chares as u32
    }

    /// The number that comes behind the statement of this number and those inside it. Statements count from
    /// 1 in the order of the text, each before those inside it. It takes no memory.
    pub fn after(&self, number: u32) -> u32
        requires { (1 ≤ number) × (number ≤ statements_in self.now.program.body) }
        ensures { slice_get (ends_of self.now.program) (number - 1) ≡ Some result }
    {
        self.ends[number as usize - 1]
    }
}

// A program that breaks no rule.
pub(crate) fn accept(names: Names, ends: Vec<u32>) -> Accepted
    requires kept { refusal names.program ≡ None }
    requires ends { ends.items ≡ ends_of names.program }
    ensures { result.program ≡ names.program }
{
    let Names {
        program,
        kinds,
        cells,
    } = names;
    Accepted {
        program,
        kinds,
        cells,
        ends,
    }
}
