//! The real input.

ghost use Rattle.std.specs.Prelude.{◌≡◌, ◌≤◌, false, [], length, IfSome};

use mm_base::{Failed, Source};
use std::io::{ErrorKind, Read};

/// Standard input, or what else is read. It tells nothing of what is left.
#[derive(Drop)]
pub struct RealInput<R: Read + Drop> {
    reader: R,
    faults: u64,
}

impl<R: Read + Drop> RealInput<R> {
    pub fn new(reader: R) -> Self {
        RealInput { reader, faults: 0 }
    }

    /// How often it has failed.
    #[cfg(test)]
    pub fn faults(&self) -> u64
        ensures { result ≡ self.now.faults }
    {
        self.faults
    }
}

impl<R: Read + Drop> Source for RealInput<R> {
    ghost tells = { λ s. false };

    ghost left = { λ s. [] };

    ghost faults = { λ s. s.faults };

    fn read(&mut self, buf: &mut [u8]) -> Result<usize, Failed> {
        match attempt(&mut self.reader, buf) {
            Some(count) => Ok(count),
            None => {
                self.faults = self.faults.saturating_add(1);
                Err(Failed)
            }
        }
    }
}

/// Reads once, again where it was interrupted: how many bytes it gave, none where it failed.
fn attempt<R: Read>(reader: &mut R, buf: &mut [u8]) -> Option<usize>
    ensures { IfSome result (λ n. n ≤ length buf.old) }
{
    let room = buf.len();
    for _ in 0..u64::MAX {
        match reader.read(buf) {
            Ok(count) if count <= room => return Some(count),
            Err(error) if error.kind() == ErrorKind::Interrupted => {}
            _ => return None,
        }
    }
    None
}
