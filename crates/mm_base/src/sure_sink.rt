ghost use Rattle.std.specs.Prelude.{◌≡◌, [], true, IfOk, length};
ghost use Rattle.mm_base.specs.Memory.{kept_with};

use crate::buffer::Buffer;
use crate::{Failed, Memory, Sink};
use std::alloc::Global;
use std::marker::Model;

/// A sink in memory that never fails.
///
/// It takes its room, in bytes, when it is made. What would pass the room is taken and dropped, and from then on
/// the sink no longer tells its bytes.
#[derive(Debug, Drop)]
pub struct SureSink {
    buffer: Buffer,
}

impl Model for SureSink {
    ghost use Rattle.mm_base.specs.Memory.{Kept};

    ghost Value = { Kept };

    ghost view = { λ s. s.buffer };
}

impl SureSink {
    /// An empty sink with so many bytes of room.
    pub fn new(alloc: Global, room: u64) -> Result<SureSink, Memory>
        ensures { IfOk result (λ s. s ≡ record { bytes = []; room = room; told = true }) }
    {
        Ok(SureSink {
            buffer: Buffer::new(alloc, room)?,
        })
    }

    /// The bytes that it keeps: all that it took, or the first of them where its room was passed.
    pub fn held(&self) -> &[u8]
        ensures { result.now ≡ self.now.bytes }
    {
        self.buffer.held()
    }
}

impl Sink for SureSink {
    ghost tells = { λ s. s.told };

    ghost held = { λ s. s.bytes };

    ghost faults = { λ s. 0 };

    fn write(&mut self, piece: &[u8]) -> Result<usize, Failed>
        ensures whole { result ≡ Ok (length piece.now) }
        ensures kept { self.new ≡ kept_with piece.now self.old }
    {
        self.buffer.take(piece);
        Ok(piece.len())
    }
}
