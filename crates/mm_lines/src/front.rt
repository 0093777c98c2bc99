ghost use Rattle.std.specs.Prelude.{◌≡◌, ◌++◌, [], IfOk};
ghost use Rattle.mm_lines.specs.Parts.{held};

use mm_base::Memory;
use std::alloc::Global;
use std::marker::Model;

// How many bytes of a line that has not ended are held at most.
const MOST_HELD: usize = 65_538;

// The first bytes of a line. Once it is made, it takes no memory.
#[derive(Debug, Drop)]
pub struct Front {
    bytes: Vec<u8>,
}

impl Model for Front {
    ghost use Rattle.std.specs.Prelude.{List, ℕ, ◌≤◌, vec_len, vec_capacity};
    ghost use Rattle.mm_lines.specs.Limits.{most_held};

    ghost Value = { List ℕ };

    ghost view = { λ f. f.bytes.items };

    ghost invariant = { λ f. (vec_len f.bytes ≤ most_held) × (most_held ≤ vec_capacity f.bytes) };
}

impl Front {
    pub fn new(alloc: Global) -> Result<Front, Memory>
        ensures { IfOk result (λ f. f ≡ []) }
    {
        Ok(Front {
            bytes: Vec::with_capacity(alloc, MOST_HELD)?,
        })
    }

    pub fn bytes(&self) -> &[u8]
        ensures { result.now ≡ self.now }
    {
        &self.bytes
    }

    pub fn clear(&mut self)
        ensures { self.new ≡ [] }
    {
        self.bytes.clear();
    }

    // Adds the bytes, as far as there is room.
    pub fn add(&mut self, piece: &[u8])
        ensures { self.new ≡ held (self.old ++ piece.now) }
    {
        let left = MOST_HELD - self.bytes.len();
        let (piece, _) = piece.split_at(piece.len().min(left));
        if self.bytes.extend_from_slice(piece).is_err() {
            unreachable!()
        }
    }
}
