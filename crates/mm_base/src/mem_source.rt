ghost use Rattle.std.specs.Prelude.{◌≡◌, ◌++◌, IfOk, OnErr, length, take, drop, min, is_err};
ghost use Rattle.mm_base.specs.Memory.{CountsCall};

use crate::calls::Calls;
use crate::unread::Unread;
use crate::{Failed, Memory, Source};
use std::alloc::Global;
use std::marker::Model;

/// A source in memory that fails at the calls whose numbers it was given, counted from 1.
///
/// A call gives as many bytes as there is room for.
#[derive(Debug, Drop)]
pub struct MemSource {
    unread: Unread,
    calls: Calls,
}

impl Model for MemSource {
    ghost use Rattle.mm_base.specs.Memory.{SourceState};

    ghost Value = { SourceState };

    ghost view = { λ s. record { left = s.unread; calls = s.calls } };
}

impl MemSource {
    /// A source of these bytes.
    pub fn new(alloc: Global, bytes: &[u8], failing: &[u64]) -> Result<MemSource, Memory>
        ensures left { IfOk result (λ s. s.left ≡ bytes.now) }
        ensures calls { IfOk result (λ s. s.calls ≡ record { made = 0; failing = failing.now; faults = 0 }) }
    {
        Ok(MemSource {
            unread: Unread::new(alloc, bytes)?,
            calls: Calls::new(alloc, failing)?,
        })
    }
}

impl Source for MemSource {
    ghost use Rattle.std.specs.Prelude.{true};

    ghost tells = { λ s. true };

    ghost left = { λ s. s.left };

    ghost faults = { λ s. s.calls.faults };

    /// What stands in the buffer behind the bytes that it gives stays, and where it fails the whole buffer.
    fn read(&mut self, buf: &mut [u8]) -> Result<usize, Failed>
        ensures count { IfOk result (λ n. n ≡ min (length buf.old) (length self.old.left)) }
        ensures filled { IfOk result (λ n. buf.new ≡ take n self.old.left ++ drop n buf.old) }
        ensures left { IfOk result (λ n. self.new.left ≡ drop n self.old.left) }
        ensures err { OnErr result ((buf.new ≡ buf.old) × (self.new.left ≡ self.old.left)) }
        ensures calls { CountsCall self.old.calls self.new.calls (is_err result) }
    {
        if self.calls.count() {
            return Err(Failed);
        }
        Ok(self.unread.give(buf))
    }
}
