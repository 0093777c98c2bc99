//! A file gets a new text, whole or not at all.

ghost use Rattle.std.specs.Prelude.{◌≡◌, ◌≤◌, ◌+◌, length, take};

use std::alloc::Global;
use std::fs::{self, Metadata, OpenFile, OpenOptions};
use std::io::{self, ErrorKind, Write};
use std::os::unix::fs::{MetadataExt, OpenOptionsExt, chown};
use std::path::PathBuf;
use std::rt::Files;

/// How many names are tried for a new file beside an old one. Those that killed processes left behind are passed over.
const MOST_NEW_NAMES: u32 = 1_000_000;

/// How many bytes behind a name the longest of those takes.
const NUMBER_ROOM: usize = 10;

/// How many symbolic links are followed one after another, as by the system.
const MOST_LINKS: u32 = 40;

/// Whom the system lets use a new file: the owner alone while it is being filled in the place of an old one.
const OWNER_ALONE: u32 = 0o600;

const WHO_MAY: u32 = 0o666;

/// Puts the whole text into a new file beside the named one, and then in its place. A symbolic link stays, and what it leads
/// to is replaced. Only a device or a pipe takes the text as it stands.
pub fn replace_file<R: Files>(
    system: &R,
    alloc: Global,
    name: &str,
    bytes: &[u8],
) -> io::Result<()> {
    let old = match fs::metadata(system, name) {
        Ok(old) if old.is_file() => Some(old),
        Ok(old) if old.is_dir() => return Err(io::Error::from(ErrorKind::IsADirectory)),
        Ok(_) => {
            return OpenOptions::new()
                .write(true)
                .open(system, name)?
                .write_all(bytes);
        }
        Err(error) if error.kind() == ErrorKind::NotFound => None,
        Err(error) => return Err(error),
    };
    let place = followed(system, alloc, name)?;
    put(system, alloc, &place, old.as_ref(), bytes)
}

/// Where a name leads by the symbolic links at its end.
fn followed<R: Files>(system: &R, alloc: Global, name: &str) -> io::Result<PathBuf> {
    let mut place = PathBuf::from_str(alloc, name)?;
    for _ in 0..MOST_LINKS {
        match system.read_link(alloc, place.as_str()) {
            Ok(next) => {
                place.pop();
                place.push(next.as_path())?;
            }
            Err(error) if is_no_link(&error) => return Ok(place),
            Err(error) => return Err(error),
        }
    }
    Err(io::Error::from(ErrorKind::Other))
}

/// Whether an error of reading a link says that there is none.
fn is_no_link(error: &io::Error) -> bool {
    matches!(error.kind(), ErrorKind::InvalidInput | ErrorKind::NotFound)
}

/// Puts the whole text into a new file, and moves it to its place. On a fault nothing is left beside it.
fn put<R: Files>(
    system: &R,
    alloc: Global,
    place: &PathBuf,
    old: Option<&Metadata>,
    bytes: &[u8],
) -> io::Result<()> {
    let who = if old.is_some() { OWNER_ALONE } else { WHO_MAY };
    let name = place.file_name().unwrap_or("");
    let (file, beside) = match create(system, alloc, place, name, who) {
        Err(error) if error.kind() == ErrorKind::InvalidFilename => {
            create(system, alloc, place, with_room(name), who)?
        }
        created => created?,
    };
    let beside = beside.as_str();
    let written = match fill(system, file, beside, old, bytes) {
        Ok(()) => fs::rename(system, beside, place.as_str()),
        Err(error) => Err(error),
    };
    if written.is_err() {
        let _ = fs::remove_file(system, beside);
    }
    written
}

/// A new file beside a place whose name begins with this one, and where it is.
fn create<R: Files>(
    system: &R,
    alloc: Global,
    place: &PathBuf,
    name: &str,
    who: u32,
) -> io::Result<(R::File, PathBuf)> {
    for number in 0..MOST_NEW_NAMES {
        let name = format!(in alloc; "{name}.new{number}")?;
        let beside = place.with_file_name(alloc, name.as_str())?;
        match OpenOptions::new()
            .write(true)
            .create_new(true)
            .mode(who)
            .open(system, beside.as_str())
        {
            Ok(file) => return Ok((file, beside)),
            Err(error) if error.kind() == ErrorKind::AlreadyExists => {}
            Err(error) => return Err(error),
        }
    }
    Err(io::Error::from(ErrorKind::AlreadyExists))
}

/// A name without its last bytes, so that a number behind it makes it no longer than it was.
fn with_room(name: &str) -> &str
    ensures front { result.now ≡ take (length result.now) name.now }
    ensures room { NUMBER_ROOM ≤ length name.now → length result.now + NUMBER_ROOM ≤ length name.now }
{
    let kept = name.floor_char_boundary(name.len().saturating_sub(NUMBER_ROOM));
    &name[..kept]
}

/// Writes the whole text, lets use the file those who could use the old one, and has it kept.
fn fill<R: Files>(
    system: &R,
    mut file: R::File,
    name: &str,
    old: Option<&Metadata>,
    bytes: &[u8],
) -> io::Result<()> {
    file.write_all(bytes)?;
    if let Some(old) = old {
        // Only the superuser may give a file away.
        let _ = chown(system, name, Some(old.uid()), Some(old.gid()));
        OpenFile::set_permissions(&file, old.permissions())?;
    }
    file.sync_all()
}
