// The versions of files that a desk in memory keeps.
//
// A new version of a file stands behind the older ones, which stay as they are. So a file that is
// being read keeps its bytes when its name is created again, and opening it takes no memory.
ghost use Rattle.std.specs.Prelude.{◌≡◌, ◌<◌, ◌∷◌, ◌++◌, [], IfSome, None, MatchOption, OnErr, OnOk, length};
ghost use Rattle.bs_desk.specs.Versions.{IsNewest, bytes_at, found, lengthened, moved, same_name, seen_of};

use std::alloc::{AllocError, Global};

#[derive(Drop)]
pub struct Version {
    pub name: Vec<u8>,
    pub bytes: Vec<u8>,
}

fn is_same(a: &[u8], b: &[u8]) -> bool
    ensures { result ≡ same_name a.now b.now }
{
    a == b
}

/// The place of the newest version of that name.
pub fn newest(files: &[Version], name: &[u8]) -> Option<usize>
    ensures { MatchOption result (found (seen_of files.now) name.now ≡ None) (IsNewest (seen_of files.now) name.now) }
{
    let mut newest = None;
    for (place, version) in files.iter().enumerate() {
        if is_same(name, &version.name) {
            newest = Some(place);
        }
    }
    newest
}

/// The bytes of the version at that place.
pub fn bytes_of(files: &[Version], place: usize) -> &[u8]
    requires { place < length files.now }
    ensures { result.now ≡ bytes_at (seen_of files.now) place }
{
    &files[place].bytes
}

/// Where the created file stands after a version of that name was put behind all others.
pub fn place_after_push(files: &[Version], created: Option<usize>, name: &[u8]) -> Option<usize>
    requires { IfSome created (λ place. place < length files.now) }
    ensures { result ≡ moved (seen_of files.now) created name.now }
{
    match created {
        Some(place) if is_same(&files[place].name, name) => Some(files.len()),
        _ => created,
    }
}

/// Puts a version behind all others. Where memory is wanting, they stay as they were.
pub fn push(
    alloc: Global,
    files: &mut Vec<Version>,
    name: &[u8],
    bytes: &[u8],
) -> Result<(), AllocError>
    ensures ok { OnOk result (seen_of files.new.items ≡ seen_of files.old.items ++ (name.now, bytes.now) ∷ []) }
    ensures err { OnErr result (seen_of files.new.items ≡ seen_of files.old.items) }
{
    let name = Vec::from_slice(alloc, name)?;
    let bytes = Vec::from_slice(alloc, bytes)?;
    files.push(Version { name, bytes })?;
    Ok(())
}

/// Puts bytes at the end of the version at that place, and at the end of what was written. Where
/// memory is wanting, both stay as they were.
pub fn append(
    files: &mut [Version],
    place: usize,
    written: &mut Vec<u8>,
    bytes: &[u8],
) -> Result<(), AllocError>
    requires { place < length files.old }
    ensures files { OnOk result (seen_of files.new ≡ lengthened (seen_of files.old) place bytes.now) }
    ensures written { OnOk result (written.new.items ≡ written.old.items ++ bytes.now) }
    ensures err { OnErr result ((written.new.items ≡ written.old.items) × (seen_of files.new ≡ seen_of files.old)) }
{
    let before = written.len();
    written.extend_from_slice(bytes)?;
    match lengthen(files, place, bytes) {
        Ok(()) => Ok(()),
        Err(e) => {
            written.truncate(before);
            Err(e)
        }
    }
}

fn lengthen(files: &mut [Version], place: usize, bytes: &[u8]) -> Result<(), AllocError>
    requires { place < length files.old }
    ensures ok { OnOk result (seen_of files.new ≡ lengthened (seen_of files.old) place bytes.now) }
    ensures err { OnErr result (seen_of files.new ≡ seen_of files.old) }
{
    files[place].bytes.extend_from_slice(bytes)
}
