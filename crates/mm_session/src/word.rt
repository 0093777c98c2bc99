ghost use Rattle.std.specs.Prelude.{◌≡◌, IfOk};

use mm_base::Memory;
use std::alloc::Global;
use std::marker::Model;

/// A command line that is handed to a session, seen as its bytes.
#[derive(Drop)]
pub struct Word {
    bytes: Vec<u8>,
}

impl Model for Word {
    ghost use Rattle.std.specs.Prelude.{List, ℕ};

    ghost Value = { List ℕ };

    ghost view = { λ w. w.bytes.items };
}

impl Word {
    /// The line of these bytes.
    pub fn new(alloc: Global, bytes: &[u8]) -> Result<Word, Memory>
        ensures { IfOk result (λ w. w ≡ bytes.now) }
    {
        Ok(Word {
            bytes: bytes.to_vec(alloc)?,
        })
    }

    /// Its bytes.
    pub fn bytes(&self) -> &[u8]
        ensures { result.now ≡ self.now }
    {
        &self.bytes
    }
}
