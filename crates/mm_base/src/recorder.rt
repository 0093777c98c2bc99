ghost use Rattle.std.specs.Prelude.{◌≡◌, ℕ, List, Bool, true, false, IsTrue, OnErr, OnOk, is_err, is_ok, option_map};
ghost use Rattle.mm_base.specs.Recorder.{HasFailed, HasHeard, Log, begun_with, heard_with, log_at};

use crate::Failed;

/// What hears the transcript of a session while a log is open.
///
/// It has a log for each time that one was begun: its name, and what was heard until it was finished.
pub trait Recorder: Drop {
    /// Whether it tells its logs.
    ghost tells: { Self → Bool };

    /// Its logs, the oldest first, where it tells them.
    ghost logs: { Self → List Log };

    /// Whether a log is begun.
    ghost is_begun: { Self → Bool };

    /// How often it has failed, up to the greatest u64.
    ghost faults: { Self → ℕ };

    /// Begins a log of this name.
    fn begin(&mut self, name: &[u8]) -> Result<(), Failed>
        requires { is_begun self.old ≡ false }
        ensures begun { is_begun self.new ≡ is_ok result }
        ensures stays { OnOk result (HasHeard tells logs faults (begun_with name.now) self.old self.new) }
        ensures fails { OnErr result (HasFailed tells logs faults (begun_with name.now) self.old self.new) }
        ensures kept { OnErr result (IsTrue (tells self.new) → logs self.new ≡ logs self.old) };

    /// Appends a piece to the log. Where it fails, it may have taken the first bytes of the piece.
    fn hear(&mut self, piece: &[u8]) -> Result<(), Failed>
        requires { is_begun self.old ≡ true }
        ensures begun { is_begun self.new ≡ true }
        ensures stays { OnOk result (HasHeard tells logs faults (heard_with piece.now) self.old self.new) }
        ensures fails { OnErr result (HasFailed tells logs faults (heard_with piece.now) self.old self.new) };

    /// Ends the log.
    fn finish(&mut self) -> Result<(), Failed>
        requires { is_begun self.old ≡ true }
        ensures begun { is_begun self.new ≡ is_err result }
        ensures stays { OnOk result (HasHeard tells logs faults (λ ls. ls) self.old self.new) }
        ensures fails { OnErr result (HasFailed tells logs faults (λ ls. ls) self.old self.new) };

    /// The name of its log with this number, counted from 1. There is none where it doesn't tell its logs or has no such log.
    fn name_of(&self, number: u64) -> Option<&[u8]>
        ensures { option_map (λ b. b.now) result ≡ option_map (λ (l : Log). l.name) (log_at (tells self.now) (logs self.now) number) };

    /// The bytes of that log.
    fn heard(&self, number: u64) -> Option<&[u8]>
        ensures { option_map (λ b. b.now) result ≡ option_map (λ (l : Log). l.bytes) (log_at (tells self.now) (logs self.now) number) };
}
