ghost use Rattle.std.specs.Prelude.{◌≡◌, ◌≢◌, false};
ghost use Rattle.mm_base.specs.Outside.{RoseBy};
ghost use Rattle.mm_session.specs.Headline.{IsSession, KeepsLogs};
ghost use Rattle.mm_session.specs.Hearing.{AreReady, recording, telling};
ghost use Rattle.mm_session.specs.Laws.{RefusedChangesNothing, SessionIsSound};
ghost use Rattle.mm_session.specs.Saves.{DatabasesAreFromFiles, PutsTheDatabase, WrittenTheoremsHold};
ghost use Rattle.mm_session.specs.Undos.{EditsAreUndone, RedosAreAccepted, RedosLeadForward, UndosAreAccepted, UndosLeadBack};

use crate::commands::Commands;
use crate::output::Output;
use crate::run::Run;
use crate::turn::{Turn, take_turn};
use crate::word::Word;
use arrayvec::ArrayVec;
use mm_base::{Files, Recorder, Recorders, Sink, Source, Steps};
use std::alloc::Global;
use std::sync::ledger::Ledger;

/// How a session has ended.
#[derive(Drop)]
pub struct SessionEnd {
    /// 0: the input or EXIT has ended it. 1: so too, and some command was refused. 3: the input failed.
    /// 4: the screen failed. 5: a 65th command found no memory, or there was none to begin with.
    /// 6: a 65th command's call on the files failed. 7: 4,294,967,296 bytes of input were taken.
    pub status: u8,
    /// How many commands were run.
    pub lines: u64,
    /// The numbers, from 1, of the commands that found no memory, but for a 65th.
    pub starved: ArrayVec<u64, 64>,
    /// The numbers of the commands whose call on the files failed, but for a 65th.
    pub faulted: ArrayVec<u64, 64>,
}

/// Runs commands one after another: the words, and then the lines of the input, up to EXIT or the end of the input.
///
/// Before each it writes the prompt, and only then reads a line. Then it writes the line, and the text of its answer. The
/// recorders hear what the screen has taken while a log is open. They must be ready, with no log open.
pub fn run_session<F: Files, S: Source, K: Sink, L: Ledger>(
    alloc: Global,
    words: &[Word],
    files: &mut F,
    input: &mut S,
    screen: &mut K,
    recorders: &mut Recorders,
    steps: &mut Steps<L>,
) -> SessionEnd
    requires closed { recorders.old.begun ≡ false }
    requires ready { AreReady ⟦<dyn Recorder as Recorder>⟧ recorders.old }

    // The session is the machine's, over the maps that its commands met.
    ensures session { IsSession ⟦<F as Files>⟧ ⟦<S as Source>⟧ ⟦<K as Sink>⟧ words.now files.old input.old screen.old result files.new input.new screen.new }

    // Each live recorder has gained the logs of the session, or has failed and is lost with a part of them. No log is open.
    ensures logs { KeepsLogs ⟦<F as Files>⟧ ⟦<S as Source>⟧ ⟦<K as Sink>⟧ (telling ⟦<dyn Recorder as Recorder>⟧) words.now files.old input.old screen.old (recording recorders.old) result files.new input.new screen.new (recording recorders.new) }
    ensures closed { recorders.new.begun ≡ false }
    ensures ready { AreReady ⟦<dyn Recorder as Recorder>⟧ recorders.new }

    // In every session of the machine a command that is refused or gives up changes nothing, a proof in hand is valid for its theorem, each theorem whose last save was complete is
    // accepted in every file written since, and a file that is written is the database that was read, with the saved proofs.
    ensures refused { RefusedChangesNothing }
    ensures valid { SessionIsSound }
    ensures accepted { WrittenTheoremsHold }
    ensures origin { DatabasesAreFromFiles }
    ensures written { PutsTheDatabase }

    // As many UNDOs as edits give the proof before these edits. UNDO is accepted where there is a past, and REDO where there is
    // a future; each leads one proof back or forward.
    ensures undone { EditsAreUndone }
    ensures back { UndosLeadBack }
    ensures forward { RedosLeadForward }
    ensures undo_accepted { UndosAreAccepted }
    ensures redo_accepted { RedosAreAccepted }

    // Why it ended.
    ensures input_failed { result.status ≡ 3 → RoseBy 1 (S.faults input.old) (S.faults input.new) }
    ensures input_held { result.status ≢ 3 → S.faults input.new ≡ S.faults input.old }
    ensures screen_failed { result.status ≡ 4 → RoseBy 1 (K.faults screen.old) (K.faults screen.new) }
    ensures screen_held { result.status ≢ 4 → K.faults screen.new ≡ K.faults screen.old }
{
    let mut run = Run::new();
    let mut commands = match Commands::new(alloc, words) {
        Ok(commands) => commands,
        Err(_) => return ended(run, 5),
    };
    let mut output = Output::new(screen, recorders);
    loop {
        match take_turn(
            alloc,
            &mut commands,
            &mut run,
            files,
            input,
            &mut output,
            steps,
        ) {
            Turn::GoesOn => {}
            Turn::Ended(status) => {
                output.end();
                return ended(run, status);
            }
        }
    }
}

fn ended(run: Run, status: u8) -> SessionEnd
    ensures { result ≡ record { status = status; lines = run.lines; starved = run.starved; faulted = run.faulted } }
{
    SessionEnd {
        status,
        lines: run.lines,
        starved: run.starved,
        faulted: run.faulted,
    }
}
