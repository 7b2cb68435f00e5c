// Why a program is refused.
use std::alloc::AllocError;

/// A rule of the language that a statement or the declarations break, in the order in which they
/// are told at one statement.
#[derive(Clone, Copy, Debug, PartialEq, Eq, Drop)]
pub enum Rule {
    /// A name of the statement isn't declared as what it is used for.
    UnknownName,
    /// Two declarations have one name.
    TwiceDeclared,
    /// A message or a wait has another number of arguments than its entry has parameters.
    Arity,
    /// A part of an `overlap` writes a variable that another part reads or writes: the variable's
    /// number in the order of declaration, and the two parts, the lesser first, all counted from 0.
    Interference(u32, u32, u32),
    /// No statement of a loop's body is sure to make a block.
    IdleLoop,
    /// A number is beyond a limit of the language.
    Limits,
}

/// Why a program isn't accepted.
#[derive(Clone, Copy, Debug, PartialEq, Eq, Drop)]
pub enum CheckFault {
    /// The number of the statement, counted from 1 in the order of the text, or 0 for the
    /// declarations, and the rule that it breaks.
    Refused(u32, Rule),
    Memory,
}

impl From<AllocError> for CheckFault {
    ghost use Rattle.std.specs.Prelude.{◌≡◌};
    ghost use Rattle.bs_check.specs.declared.fault.CheckFault.TheVariants.{Memory};

    ghost from_gives = { λ _ fault. fault ≡ Memory };

    fn from(_: AllocError) -> CheckFault {
        CheckFault::Memory
    }
}
