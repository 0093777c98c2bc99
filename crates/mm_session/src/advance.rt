ghost use Rattle.std.specs.Prelude.{◌≡◌, ◌+◌, ◌<◌, IsTrue};
ghost use Rattle.mm_shell.specs.Sound.{IsSound};
ghost use Rattle.mm_step.specs.Asked.{asked_of};
ghost use Rattle.mm_step.specs.Logs.{IsLogChange, log_change};
ghost use Rattle.mm_session.specs.Advance.{Advances, IsLine, is_refused_by};

use crate::run::Run;
use mm_base::{Files, Steps};
use mm_step::{Reply, step};
use std::alloc::Global;
use std::sync::ledger::Ledger;

/// What has become of a command in its session.
#[derive(Drop)]
pub enum Progress {
    /// The session goes on, with this reply.
    Replied(Reply),
    /// It is the 65th that found no memory.
    Starved,
    /// It is the 65th whose call on the files failed.
    Faulted,
}

/// Runs the next command. The nodes that it makes are counted in `steps`.
pub fn advance<F: Files, L: Ledger>(
    alloc: Global,
    run: &mut Run,
    files: &mut F,
    line: &[u8],
    steps: &mut Steps<L>,
) -> Progress
    requires fits { run.old.lines + 1 < 18446744073709551616 }
    requires sound { IsSound run.old.state }
    ensures lines { run.new.lines ≡ run.old.lines + 1 }
    ensures log { IsLogChange (log_change (is_refused_by result) (asked_of line.now)) run.old.state.log_open run.new.state.log_open }
    ensures goes { (whole : _) (commands : _) (maps : _) (begun : _) → IsLine line.now whole → Advances ⟦<F as Files>⟧ commands maps begun run.old files.old whole result run.new files.new }
{
    run.lines += 1;
    match step(alloc, &mut run.state, files, line, steps) {
        Reply::Starved => {
            if run.starved.is_full() {
                return Progress::Starved;
            }
            run.starved.push(run.lines);
            run.refused = true;
            Progress::Replied(Reply::Starved)
        }
        Reply::Faulted => {
            if run.faulted.is_full() {
                return Progress::Faulted;
            }
            run.faulted.push(run.lines);
            run.refused = true;
            Progress::Replied(Reply::Faulted)
        }
        Reply::Done { text, refused } => {
            run.refused = run.refused | refused;
            Progress::Replied(Reply::Done { text, refused })
        }
    }
}
