// What holds of the canonical text of each program.
ghost use Rattle.bs_print.specs.Law.{PrintedIsRead, OneCanonicalText};

/// The canonical text of a program that some text spells spells that program.
pub fn printed_is_read()
    ensures { PrintedIsRead }
{}

/// Two programs that texts spell have the same canonical text only if they are the same.
pub fn one_canonical_text()
    ensures { OneCanonicalText }
{}
