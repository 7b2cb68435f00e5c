//! What holds of the programs and the faults of every text.
ghost use Rattle.bs_parse.specs.TextLaws.{NotBoth, OneFault, OneProgram, SomeAnswer};

/// A text spells at most one program.
pub fn one_program()
    ensures { OneProgram }
{}

/// A text has at most one fault.
pub fn one_fault()
    ensures { OneFault }
{}

/// A text that spells a program has no fault.
pub fn no_both()
    ensures { NotBoth }
{}

/// Every text spells a program or has a fault. So by the other laws it does just one of the two, and
/// `parse` answers that one wherever memory is found.
pub fn some_answer()
    ensures { SomeAnswer }
{}
