// What holds of the tokens of every text.
ghost use Rattle.bs_lex.specs.Written.{WrittenIsRead, NeedsNoMemory};

/// The texts of symbols, with one space between two of them and LF at the end, have just these
/// symbols as their tokens.
pub fn written_symbols_are_read()
    ensures { WrittenIsRead }
{}

/// The fault of a text is never the want of memory.
pub fn faults_are_of_the_text()
    ensures { NeedsNoMemory }
{}
