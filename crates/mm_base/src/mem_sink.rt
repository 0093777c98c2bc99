ghost use Rattle.std.specs.Prelude.{◌≡◌, [], true, IfOk, OnOk, OnErr, length, is_err};
ghost use Rattle.mm_base.specs.Memory.{kept_with, CountsCall};

use crate::buffer::Buffer;
use crate::calls::Calls;
use crate::{Failed, Memory, Sink};
use std::alloc::Global;
use std::marker::Model;

/// A sink in memory that fails at the calls whose numbers it was given, counted from 1.
///
/// It takes its room, in bytes, when it is made. What would pass the room is taken and dropped, and from then on
/// the sink no longer tells its bytes.
#[derive(Debug, Drop)]
pub struct MemSink {
    buffer: Buffer,
    calls: Calls,
}

impl Model for MemSink {
    ghost use Rattle.mm_base.specs.Memory.{SinkState};

    ghost Value = { SinkState };

    ghost view = { λ s. record { kept = s.buffer; calls = s.calls } };
}

impl MemSink {
    /// An empty sink with so many bytes of room.
    pub fn new(alloc: Global, room: u64, failing: &[u64]) -> Result<MemSink, Memory>
        ensures kept { IfOk result (λ s. s.kept ≡ record { bytes = []; room = room; told = true }) }
        ensures calls { IfOk result (λ s. s.calls ≡ record { made = 0; failing = failing.now; faults = 0 }) }
    {
        Ok(MemSink {
            buffer: Buffer::new(alloc, room)?,
            calls: Calls::new(alloc, failing)?,
        })
    }

    /// The bytes that it keeps: all that it took, or the first of them where its room was passed.
    pub fn held(&self) -> &[u8]
        ensures { result.now ≡ self.now.kept.bytes }
    {
        self.buffer.held()
    }
}

impl Sink for MemSink {
    ghost tells = { λ s. s.kept.told };

    ghost held = { λ s. s.kept.bytes };

    ghost faults = { λ s. s.calls.faults };

    fn write(&mut self, piece: &[u8]) -> Result<usize, Failed>
        ensures whole { IfOk result (λ n. n ≡ length piece.now) }
        ensures ok { OnOk result (self.new.kept ≡ kept_with piece.now self.old.kept) }
        ensures err { OnErr result (self.new.kept ≡ self.old.kept) }
        ensures calls { CountsCall self.old.calls self.new.calls (is_err result) }
    {
        if self.calls.count() {
            return Err(Failed);
        }
        self.buffer.take(piece);
        Ok(piece.len())
    }
}
