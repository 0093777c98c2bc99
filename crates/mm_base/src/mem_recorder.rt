ghost use Rattle.std.specs.Prelude.{◌≡◌, [], true, false, IfOk, OnOk, OnErr, is_err, is_ok};
ghost use Rattle.mm_base.specs.Memory.{CountsCall, MemoryFailed, MemoryHeard, kept_begun, kept_heard};
ghost use Rattle.mm_base.specs.Recorder.{begun_with, heard_with};

use crate::calls::Calls;
use crate::log_buffer::LogBuffer;
use crate::{Failed, Memory, Recorder};
use std::alloc::Global;
use std::marker::Model;

/// A recorder in memory that fails at the calls whose numbers it was given. The calls of `begin`, `hear` and `finish` are
/// numbered together, from 1.
///
/// It takes its room when it is made. What would pass the room is taken and dropped, and from then on the recorder no
/// longer tells its logs.
#[derive(Debug, Drop)]
pub struct MemRecorder {
    logs: LogBuffer,
    begun: bool,
    calls: Calls,
}

impl Model for MemRecorder {
    ghost use Rattle.mm_base.specs.Memory.{RecorderState};

    ghost Value = { RecorderState };

    ghost view = { λ r. record { kept = r.logs; begun = r.begun; calls = r.calls } };
}

impl MemRecorder {
    /// Without a log, with room for so many pairs of name and bytes, and for so many bytes of them all together.
    pub fn new(alloc: Global, pairs: u64, room: u64, failing: &[u64]) -> Result<MemRecorder, Memory>
        ensures kept { IfOk result (λ r. r.kept ≡ record { logs = []; used = 0; pairs = pairs; room = room; told = true }) }
        ensures begun { IfOk result (λ r. r.begun ≡ false) }
        ensures calls { IfOk result (λ r. r.calls ≡ record { made = 0; failing = failing.now; faults = 0 }) }
    {
        Ok(MemRecorder {
            logs: LogBuffer::new(alloc, pairs, room)?,
            begun: false,
            calls: Calls::new(alloc, failing)?,
        })
    }
}

impl Recorder for MemRecorder {
    ghost tells = { λ r. r.kept.told };

    ghost logs = { λ r. r.kept.logs };

    ghost is_begun = { λ r. r.begun };

    ghost faults = { λ r. r.calls.faults };

    fn begin(&mut self, name: &[u8]) -> Result<(), Failed>
        requires { self.old.begun ≡ false }
        ensures begun { self.new.begun ≡ is_ok result }
        ensures ok { OnOk result (self.new.kept ≡ kept_begun name.now self.old.kept) }
        ensures err { OnErr result (self.new.kept ≡ self.old.kept) }
        ensures calls { CountsCall self.old.calls self.new.calls (is_err result) }
        ensures stays { OnOk result (MemoryHeard (begun_with name.now) self.old self.new) }
        ensures fails { OnErr result (MemoryFailed (begun_with name.now) self.old self.new) }
    {
        if self.calls.count() {
            return Err(Failed);
        }
        self.logs.begin(name);
        self.begun = true;
        Ok(())
    }

    fn hear(&mut self, piece: &[u8]) -> Result<(), Failed>
        requires { self.old.begun ≡ true }
        ensures begun { self.new.begun ≡ true }
        ensures ok { OnOk result (self.new.kept ≡ kept_heard piece.now self.old.kept) }
        ensures err { OnErr result (self.new.kept ≡ self.old.kept) }
        ensures calls { CountsCall self.old.calls self.new.calls (is_err result) }
        ensures stays { OnOk result (MemoryHeard (heard_with piece.now) self.old self.new) }
        ensures fails { OnErr result (MemoryFailed (heard_with piece.now) self.old self.new) }
    {
        if self.calls.count() {
            return Err(Failed);
        }
        self.logs.hear(piece);
        Ok(())
    }

    fn finish(&mut self) -> Result<(), Failed>
        requires { self.old.begun ≡ true }
        ensures begun { self.new.begun ≡ is_err result }
        ensures kept { self.new.kept ≡ self.old.kept }
        ensures calls { CountsCall self.old.calls self.new.calls (is_err result) }
        ensures stays { OnOk result (MemoryHeard (λ ls. ls) self.old self.new) }
        ensures fails { OnErr result (MemoryFailed (λ ls. ls) self.old self.new) }
    {
        if self.calls.count() {
            return Err(Failed);
        }
        self.begun = false;
        Ok(())
    }

    fn name_of(&self, number: u64) -> Option<&[u8]> {
        self.logs.name_of(number)
    }

    fn heard(&self, number: u64) -> Option<&[u8]> {
        self.logs.heard(number)
    }
}
