//! The real files.

ghost use Rattle.std.specs.Prelude.{◌≡◌, false, [], Some, None};
ghost use Rattle.mm_base.specs.Files.{Finds};

use crate::replacing::replace_file;
use mm_base::{Fetched, Files, FilesFault};
use std::alloc::Global;
use std::fs::{self, OpenFile};
use std::io::{self, ErrorKind, Read};
use std::rt;

/// The files of the system. They tell nothing of what they hold.
#[derive(Drop)]
pub struct RealFiles<'a, R: rt::Files> {
    system: &'a R,
    faults: u64,
}

impl<'a, R: rt::Files> RealFiles<'a, R> {
    pub fn new(system: &'a R) -> Self {
        RealFiles { system, faults: 0 }
    }
}

/// Whether an error says that there is no such file.
fn is_missing(error: &io::Error) -> bool {
    matches!(error.kind(), ErrorKind::NotFound | ErrorKind::NotADirectory)
}

/// The bytes of a file, or one more than `most` of them.
fn read_file<R: rt::Files>(
    system: &R,
    alloc: Global,
    name: &str,
    most: u64,
) -> io::Result<Vec<u8>> {
    let file = fs::open(system, name)?;
    let length = OpenFile::metadata(&file)?.len().min(most);
    let mut bytes = Vec::new(alloc);
    bytes.reserve(length as usize)?;
    file.take(most.saturating_add(1)).read_to_end(&mut bytes)?;
    Ok(bytes)
}

/// What is told of a file's bytes with this limit.
fn cut(mut bytes: Vec<u8>, most: u64) -> Fetched
    ensures { Finds (Some bytes.items) most (Some result) }
{
    let more = most < bytes.len() as u64;
    if more {
        bytes.truncate(most as usize);
    }
    Fetched { bytes, more }
}

impl<'a, R: rt::Files> Files for RealFiles<'a, R> {
    ghost use Rattle.std.specs.Prelude.{false, [], None};

    ghost tells = { λ s. false };

    ghost lookup = { λ s name. None };

    ghost faults = { λ s. s.faults };

    ghost tells_failing = { λ s. false };

    ghost calls = { λ s. 0 };

    ghost failing = { λ s. [] };

    fn fetch(
        &mut self,
        alloc: Global,
        name: &[u8],
        most: u64,
    ) -> Result<Option<Fetched>, FilesFault> {
        let Ok(name) = std::str::from_utf8(name) else {
            return Ok(None);
        };
        match read_file(self.system, alloc, name, most) {
            Ok(bytes) => Ok(Some(cut(bytes, most))),
            Err(error) if is_missing(&error) => Ok(None),
            Err(error) if error.kind() == ErrorKind::OutOfMemory => Err(FilesFault::Memory),
            Err(_) => {
                self.faults = self.faults.saturating_add(1);
                Err(FilesFault::Failed)
            }
        }
    }

    fn replace(&mut self, alloc: Global, name: &[u8], bytes: &[u8]) -> Result<(), FilesFault> {
        let written = match std::str::from_utf8(name) {
            Ok(name) => replace_file(self.system, alloc, name, bytes),
            Err(_) => Err(io::Error::from(ErrorKind::InvalidInput)),
        };
        match written {
            Ok(()) => Ok(()),
            Err(error) if error.kind() == ErrorKind::OutOfMemory => Err(FilesFault::Memory),
            Err(_) => {
                self.faults = self.faults.saturating_add(1);
                Err(FilesFault::Failed)
            }
        }
    }
}
