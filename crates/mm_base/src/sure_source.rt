ghost use Rattle.std.specs.Prelude.{◌≡◌, ◌++◌, IfOk, length, take, drop, min};

use crate::unread::Unread;
use crate::{Failed, Memory, Source};
use std::alloc::Global;
use std::marker::Model;

/// A source in memory that never fails.
///
/// A call gives as many bytes as there is room for.
#[derive(Debug, Drop)]
pub struct SureSource {
    unread: Unread,
}

impl Model for SureSource {
    ghost use Rattle.std.specs.Prelude.{ℕ, List};

    ghost Value = { List ℕ };

    ghost view = { λ s. s.unread };
}

impl SureSource {
    /// A source of these bytes.
    pub fn new(alloc: Global, bytes: &[u8]) -> Result<SureSource, Memory>
        ensures { IfOk result (λ s. s ≡ bytes.now) }
    {
        Ok(SureSource {
            unread: Unread::new(alloc, bytes)?,
        })
    }
}

impl Source for SureSource {
    ghost use Rattle.std.specs.Prelude.{true};

    ghost tells = { λ s. true };

    ghost left = { λ s. s };

    ghost faults = { λ s. 0 };

    /// What stands in the buffer behind the bytes that it gives stays.
    fn read(&mut self, buf: &mut [u8]) -> Result<usize, Failed>
        ensures count { result ≡ Ok (min (length buf.old) (length self.old)) }
        ensures filled { IfOk result (λ n. buf.new ≡ take n self.old ++ drop n buf.old) }
        ensures left { IfOk result (λ n. self.new ≡ drop n self.old) }
    {
        Ok(self.unread.give(buf))
    }
}
