// What a command says, before anything is written.
use bs_log::End;

/// Where the text of a reply goes: to standard output, to standard error, or to the file of that name.
#[derive(Drop)]
pub(crate) enum Target {
    Output,
    Errors,
    File(String),
}

/// How a command ends that has something to say: as its run does, or with a number of waves that is spent.
#[derive(Clone, Copy, Drop)]
pub(crate) enum Ending {
    Run(End),
    Spent,
}

/// A text for the file of that name.
#[derive(Drop)]
pub(crate) struct Note {
    pub(crate) name: String,
    pub(crate) text: Vec<u8>,
}

/// What a command says: how it ends, a text and where it goes, and maybe a note, which is written before
/// the text.
#[derive(Drop)]
pub(crate) struct Reply {
    pub(crate) ending: Ending,
    pub(crate) note: Option<Note>,
    pub(crate) target: Target,
    pub(crate) text: Vec<u8>,
}
