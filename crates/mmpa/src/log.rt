//! The log in a real file.

ghost use Rattle.std.specs.Prelude.{◌≡◌, false, [], is_some};

use mm_base::{Failed, Recorder};
use std::fs::OpenOptions;
use std::io::{self, ErrorKind, Write};
use std::rt;

/// A recorder that keeps each log in the file of its name, which it begins anew. It tells nothing of what the file holds.
#[derive(Drop)]
pub struct LogFile<R: rt::Files + Drop> {
    system: R,
    /// The file of the log that is begun.
    file: Option<R::File>,
    faults: u64,
}

impl<R: rt::Files + Drop> LogFile<R> {
    /// No log is begun.
    pub fn new(system: R) -> Self
        ensures { is_some result.file ≡ false }
    {
        LogFile {
            system,
            file: None,
            faults: 0,
        }
    }

    /// How often it has failed.
    #[cfg(test)]
    pub fn faults(&self) -> u64
        ensures { result ≡ self.now.faults }
    {
        self.faults
    }
}

/// A new file of this name, in place of an old one.
fn create<R: rt::Files>(system: &R, name: &[u8]) -> io::Result<R::File> {
    match std::str::from_utf8(name) {
        Ok(name) => OpenOptions::new()
            .write(true)
            .create(true)
            .truncate(true)
            .open(system, name),
        Err(_) => Err(io::Error::from(ErrorKind::InvalidInput)),
    }
}

/// Writes the whole piece where there is a file.
fn append<F: Write>(file: &mut Option<F>, piece: &[u8]) -> io::Result<()>
    ensures { is_some file.new ≡ is_some file.old }
{
    match file {
        Some(file) => file.write_all(piece),
        None => Err(io::Error::from(ErrorKind::NotFound)),
    }
}

impl<R: rt::Files + Drop> Recorder for LogFile<R> {
    ghost use Rattle.std.specs.Prelude.{false, [], is_some};

    ghost tells = { λ r. false };

    ghost logs = { λ r. [] };

    ghost is_begun = { λ r. is_some r.file };

    ghost faults = { λ r. r.faults };

    fn begin(&mut self, name: &[u8]) -> Result<(), Failed> {
        match create(&self.system, name) {
            Ok(file) => {
                self.file = Some(file);
                Ok(())
            }
            Err(_) => {
                self.faults = self.faults.saturating_add(1);
                Err(Failed)
            }
        }
    }

    fn hear(&mut self, piece: &[u8]) -> Result<(), Failed> {
        match append(&mut self.file, piece) {
            Ok(()) => Ok(()),
            Err(_) => {
                self.faults = self.faults.saturating_add(1);
                Err(Failed)
            }
        }
    }

    fn finish(&mut self) -> Result<(), Failed> {
        self.file = None;
        Ok(())
    }

    fn name_of(&self, _number: u64) -> Option<&[u8]> {
        None
    }

    fn heard(&self, _number: u64) -> Option<&[u8]> {
        None
    }
}
