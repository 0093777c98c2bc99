ghost use Rattle.std.specs.Prelude.{◌≡◌, ◌<◌, ◌≤◌, ℕ, List, Bool, length, [], IfOk, IsTrue, is_err};
ghost use Rattle.mm_base.specs.Outside.{CountsFaults};
ghost use Rattle.mm_base.specs.Source.{Gives, filled};

use crate::Failed;

/// Where bytes come from.
pub trait Source {
    /// Whether it tells the bytes that are left.
    ghost tells: { Self → Bool };

    /// The bytes that are left, where it tells them.
    ghost left: { Self → List ℕ };

    /// How often it has failed, up to the greatest u64.
    ghost faults: { Self → ℕ };

    /// Puts the first bytes that are left into the buffer's front, as many as it says.
    ///
    /// None, for a buffer that isn't empty, are the end of the input. What stands in the buffer behind them isn't said.
    fn read(&mut self, buf: &mut [u8]) -> Result<usize, Failed>
        ensures within { IfOk result (λ n. n ≤ length buf.old) }
        ensures given { Gives tells left self.old self.new (filled result buf.new) }
        ensures end { IfOk result (λ n. n ≡ 0 → 0 < length buf.old → IsTrue (tells self.new) → left self.old ≡ []) }
        ensures cause { CountsFaults (is_err result) (faults self.old) (faults self.new) };
}
