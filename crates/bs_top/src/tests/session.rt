// Sessions: commands over files, with what comes of each.
use crate::{Status, perform_alone};
use bs_desk::{MemoryDesk, Port};
use std::alloc::{AllocError, Global};
use std::process::Abort;
use std::test::Fail;

// A desk, and what should be written to its two streams by now.
#[derive(Drop)]
struct Stage {
    desk: MemoryDesk,
    out: String,
    err: String,
}

/// Plays a session on a new desk. Each part of the session begins with `$ ` and a line:
///
/// - `put NAME` puts the text behind the line into the file of that name;
/// - `show NAME` looks for that text in the file;
/// - `WORDS = CODE` performs the words, and looks for the exit code and for that text, on standard output
///   where it is a report, and on standard error otherwise;
/// - `A|B WORDS = CODE` does so for two commands, one after the other.
pub(super) fn play(rt: &(impl Abort + AllocGlobal), session: &str) -> Result<(), Fail> {
    let mut stage = Stage {
        desk: MemoryDesk::new(rt.alloc(), 4096),
        out: String::new(rt.alloc()),
        err: String::new(rt.alloc()),
    };
    for part in session.split("$ ") {
        if let Some((line, text)) = part.split_once('\n') {
            act(rt, &mut stage, line, text)?;
        }
    }
    assert_eq!(rt; stage.desk.written(Port::Out), stage.out.as_bytes());
    assert_eq!(rt; stage.desk.written(Port::Err), stage.err.as_bytes());
    Ok(())
}

fn act(
    rt: &(impl Abort + AllocGlobal),
    stage: &mut Stage,
    line: &str,
    text: &str,
) -> Result<(), Fail> {
    if let Some(name) = line.strip_prefix("put ") {
        stage.desk.put_file(name, text.as_bytes())?;
        return Ok(());
    }
    if let Some(name) = line.strip_prefix("show ") {
        assert_eq!(rt; stage.desk.file(name), Some(text.as_bytes()), "{name}");
        return Ok(());
    }
    let (words, code) = line.split_once(" = ").ok_or("no code")?;
    let (verbs, names) = words.split_once(' ').unwrap_or((words, ""));
    for verb in verbs.split('|') {
        let status = performed(rt.alloc(), &mut stage.desk, verb, names)?;
        let told = format!(in rt.alloc(); "{}", status.code())?;
        assert_eq!(rt; told.as_str(), code, "{line}");
        if is_report(status) {
            stage.out.push_str(text)?;
        } else {
            stage.err.push_str(text)?;
        }
    }
    Ok(())
}

/// Performs a command whose names and options stand in one text, with a space between two of them.
pub(super) fn performed(
    alloc: Global,
    desk: &mut MemoryDesk,
    verb: &str,
    names: &str,
) -> Result<Status, AllocError> {
    let mut words = Vec::new(alloc);
    words.push(String::from_str(alloc, verb)?)?;
    for name in names.split(' ') {
        if !name.is_empty() {
            words.push(String::from_str(alloc, name)?)?;
        }
    }
    Ok(perform_alone(alloc, words.as_slice(), desk))
}

fn is_report(status: Status) -> bool {
    matches!(status, Status::Settled | Status::Deadlock | Status::Trapped)
}
