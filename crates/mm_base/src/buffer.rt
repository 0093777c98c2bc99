ghost use Rattle.std.specs.Prelude.{◌≡◌, ◌≤◌, ◌+◌, [], ◌++◌, true, IfOk, length};
ghost use Rattle.mm_base.specs.Memory.{kept_with};

use crate::Memory;
use std::alloc::Global;
use std::marker::Model;

// Room for bytes: what would pass it is taken and dropped.
#[derive(Debug, Drop)]
pub struct Buffer {
    bytes: Vec<u8>,
    room: u64,
    told: bool,
}

impl Model for Buffer {
    ghost use Rattle.std.specs.Prelude.{◌≤◌, vec_capacity, vec_len};
    ghost use Rattle.mm_base.specs.Memory.{Kept};

    ghost Value = { Kept };

    ghost view = { λ b. record { bytes = b.bytes.items; room = b.room; told = b.told } };

    ghost invariant = { λ b. (b.room ≤ vec_capacity b.bytes) × (vec_len b.bytes ≤ b.room) };
}

impl Buffer {
    pub fn new(alloc: Global, room: u64) -> Result<Buffer, Memory>
        ensures { IfOk result (λ b. b ≡ record { bytes = []; room = room; told = true }) }
    {
        Ok(Buffer {
            bytes: Vec::with_capacity(alloc, room as usize)?,
            room,
            told: true,
        })
    }

    pub fn held(&self) -> &[u8]
        ensures { result.now ≡ self.now.bytes }
    {
        &self.bytes
    }

    // Takes the piece, and keeps as much of it as there is room for.
    pub fn take(&mut self, piece: &[u8])
        ensures { self.new ≡ kept_with piece.now self.old }
    {
        let left = self.room as usize - self.bytes.len();
        if piece.len() <= left {
            self.keep(piece);
        } else {
            let (front, _) = piece.split_at(left);
            self.keep(front);
            self.told = false;
        }
    }

    // Keeps the bytes, of which there is room for all.
    fn keep(&mut self, piece: &[u8])
        requires { length self.old.bytes + length piece.now ≤ self.old.room }
        ensures { self.new ≡ record self.old { bytes = self.old.bytes ++ piece.now } }
    {
        if self.bytes.extend_from_slice(piece).is_err() {
            unreachable!()
        }
    }
}
