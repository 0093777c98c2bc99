ghost use Rattle.std.specs.Prelude.{◌≡◌, ◌+◌, ◌<◌, false, true};
ghost use Rattle.mm_base.specs.Outside.{CountsFaults};
ghost use Rattle.mm_shell.specs.Sound.{IsSound};
ghost use Rattle.mm_session.specs.Headline.{end_status};
ghost use Rattle.mm_session.specs.Hearing.{AreReady, recording, telling};
ghost use Rattle.mm_session.specs.Turns.{Answers, Finishes, HasNext, Prompted, Stands, Turns, has_status, is_going};

use crate::advance::{Progress, advance};
use crate::commands::Commands;
use crate::output::Output;
use crate::run::Run;
use mm_base::{Files, Recorder, Sink, Source, Steps};
use mm_lines::{Next, Stopped};
use std::alloc::Global;
use std::sync::ledger::Ledger;

/// What has become of a session.
#[derive(Clone, Copy)]
pub enum Turn {
    /// It goes on.
    GoesOn,
    /// It has ended with this status.
    Ended(u8),
}

/// Writes the prompt, finds the next command, and answers it.
pub fn take_turn<F: Files, S: Source, K: Sink, L: Ledger>(
    alloc: Global,
    commands: &mut Commands<'_>,
    run: &mut Run,
    files: &mut F,
    input: &mut S,
    output: &mut Output<'_, K>,
    steps: &mut Steps<L>,
) -> Turn
    requires fits { run.old.lines + 1 < 18446744073709551616 }
    requires sound { IsSound run.old.state }
    requires ready { AreReady ⟦<dyn Recorder as Recorder>⟧ output.old.recorders.now }
    requires open { output.old.recorders.now.begun ≡ run.old.state.log_open }
    ensures same { output.new.screen.ghost_name ≡ output.old.screen.ghost_name }
    ensures same_too { output.new.recorders.ghost_name ≡ output.old.recorders.ghost_name }
    ensures ready { AreReady ⟦<dyn Recorder as Recorder>⟧ output.new.recorders.now }
    ensures open { is_going result ≡ true → output.new.recorders.now.begun ≡ run.new.state.log_open }
    ensures turns { (words : _) (begun : _) (was : _) (opened : _) (from : _) → Stands ⟦<F as Files>⟧ ⟦<S as Source>⟧ ⟦<K as Sink>⟧ (telling ⟦<dyn Recorder as Recorder>⟧) words begun was opened from commands.old run.old files.old input.old output.old.screen.now (recording output.old.recorders.now) → Turns ⟦<F as Files>⟧ ⟦<S as Source>⟧ ⟦<K as Sink>⟧ (telling ⟦<dyn Recorder as Recorder>⟧) words begun was opened from commands.old result commands.new run.new files.new input.new output.new.screen.now (recording output.new.recorders.now) }
    ensures input { CountsFaults (has_status 3 result) (S.faults input.old) (S.faults input.new) }
    ensures screen { CountsFaults (has_status 4 result) (K.faults output.old.screen.now) (K.faults output.new.screen.now) }
{
    if output.prompt(&run.state).is_err() {
        return Turn::Ended(4);
    }
    match commands.next(input) {
        Err(Stopped::Failed) => Turn::Ended(3),
        Err(Stopped::Spent) => Turn::Ended(7),
        Ok(Next::End) => finish(run, output),
        Ok(Next::Line) => answer(alloc, commands.line(), run, files, output, steps),
    }
}

// Ends the line of the last prompt.
fn finish<K: Sink>(run: &Run, output: &mut Output<'_, K>) -> Turn
    requires { AreReady ⟦<dyn Recorder as Recorder>⟧ output.old.recorders.now }
    ensures same { output.new.screen.ghost_name ≡ output.old.screen.ghost_name }
    ensures same_too { output.new.recorders.ghost_name ≡ output.old.recorders.ghost_name }
    ensures ready { AreReady ⟦<dyn Recorder as Recorder>⟧ output.new.recorders.now }
    ensures finishes { Finishes ⟦<K as Sink>⟧ (telling ⟦<dyn Recorder as Recorder>⟧) run.now.refused output.old.screen.now (recording output.old.recorders.now) result output.new.screen.now (recording output.new.recorders.now) }
    ensures screen { CountsFaults (has_status 4 result) (K.faults output.old.screen.now) (K.faults output.new.screen.now) }
{
    if output.end_line().is_err() {
        return Turn::Ended(4);
    }
    Turn::Ended(end_status(run.refused))
}

fn end_status(refused: bool) -> u8
    ensures { result ≡ end_status refused }
{
    if refused { 1 } else { 0 }
}

// Writes the echo of a line, runs it, and writes its reply.
fn answer<F: Files, K: Sink, L: Ledger>(
    alloc: Global,
    line: &[u8],
    run: &mut Run,
    files: &mut F,
    output: &mut Output<'_, K>,
    steps: &mut Steps<L>,
) -> Turn
    requires fits { run.old.lines + 1 < 18446744073709551616 }
    requires sound { IsSound run.old.state }
    requires ready { AreReady ⟦<dyn Recorder as Recorder>⟧ output.old.recorders.now }
    requires open { output.old.recorders.now.begun ≡ run.old.state.log_open }
    ensures same { output.new.screen.ghost_name ≡ output.old.screen.ghost_name }
    ensures same_too { output.new.recorders.ghost_name ≡ output.old.recorders.ghost_name }
    ensures ready { AreReady ⟦<dyn Recorder as Recorder>⟧ output.new.recorders.now }
    ensures open { is_going result ≡ true → output.new.recorders.now.begun ≡ run.new.state.log_open }
    ensures answers { (commands : _) (taken : _) (begun : _) (opened : _) (from : _) (whole : _) → Prompted ⟦<F as Files>⟧ ⟦<K as Sink>⟧ (telling ⟦<dyn Recorder as Recorder>⟧) commands begun opened from run.old files.old output.old.screen.now (recording output.old.recorders.now) → HasNext commands taken run.old line.now whole → Answers ⟦<F as Files>⟧ ⟦<K as Sink>⟧ (telling ⟦<dyn Recorder as Recorder>⟧) commands taken begun opened from run.old result run.new files.new output.new.screen.now (recording output.new.recorders.now) }
    ensures input { has_status 3 result ≡ false }
    ensures screen { CountsFaults (has_status 4 result) (K.faults output.old.screen.now) (K.faults output.new.screen.now) }
{
    if output.echo(line).is_err() {
        return Turn::Ended(4);
    }
    let was_open = run.state.log_open;
    match advance(alloc, run, files, line, steps) {
        Progress::Starved => Turn::Ended(5),
        Progress::Faulted => Turn::Ended(6),
        Progress::Replied(reply) => {
            if output
                .reply(alloc, reply, line, was_open, run.state.log_open)
                .is_err()
            {
                return Turn::Ended(4);
            }
            if run.state.ended {
                return Turn::Ended(end_status(run.refused));
            }
            Turn::GoesOn
        }
    }
}
