//! The real screen.

ghost use Rattle.std.specs.Prelude.{◌≡◌, false, []};

use mm_base::{Failed, Sink};

/// Standard output. It tells nothing of what it holds.
#[derive(Drop)]
pub struct Screen<'a, P: Print> {
    out: &'a P,
    faults: u64,
}

impl<'a, P: Print> Screen<'a, P> {
    pub fn new(out: &'a P) -> Self {
        Screen { out, faults: 0 }
    }

    /// How often it has failed.
    #[cfg(test)]
    pub fn faults(&self) -> u64
        ensures { result ≡ self.now.faults }
    {
        self.faults
    }
}

impl<'a, P: Print> Sink for Screen<'a, P> {
    ghost tells = { λ s. false };

    ghost held = { λ s. [] };

    ghost faults = { λ s. s.faults };

    fn write(&mut self, piece: &[u8]) -> Result<usize, Failed> {
        if piece.is_empty() {
            return Ok(0);
        }
        match self.out.write_some(piece) {
            Ok(taken) if taken > 0 => Ok(taken),
            _ => {
                self.faults = self.faults.saturating_add(1);
                Err(Failed)
            }
        }
    }
}
