//! One line: its command is chosen by its group, and its change is made.

ghost use Rattle.std.specs.Prelude.{◌≡◌, IsTrue};
ghost use Rattle.mm_base.specs.Outside.{CountsFaults};
ghost use Rattle.mm_command.specs.Meanings.{meaning_of};
ghost use Rattle.mm_shell.specs.Sound.{IsSound};
ghost use Rattle.mm_database_commands.specs.Commands.{HasName, database_plan};
ghost use Rattle.mm_edit_commands.specs.Edits.{edit_answer};
ghost use Rattle.mm_proof_commands.specs.Commands.{proof_answer};
ghost use Rattle.mm_setting_commands.specs.Commands.{setting_answer};
ghost use Rattle.mm_step.specs.Asked.{asked_of};
ghost use Rattle.mm_step.specs.Effects.{command_plan, effect_in, is_faulted, is_refused, step_of};
ghost use Rattle.mm_step.specs.Logs.{IsLogChange, log_change};
ghost use Rattle.mm_step.specs.Ran.{HasRun, Performs, Replies, Tells, reply_in};

use crate::group::{Group, group_of};
use crate::perform::call_files;
use crate::reply::{Reply, refuse, tell};
use mm_base::{Files, Steps};
use mm_command::{Command, MOST_LINE, read_command};
use mm_database_commands::plan;
use mm_edit_commands::edit;
use mm_proof_commands::answer as proof_answer;
use mm_setting_commands::answer as setting_answer;
use mm_shell::{Change, Refusal, State, Text, apply_change};
use std::alloc::Global;
use std::sync::ledger::Ledger;

/// Runs one line. Its effect is that of the command that it spells; else it is refused. The state must be sound, and it
/// stays so. The nodes that it makes are counted in `steps`.
#[tactic(auto, unfolding(crate::specs::Effects::step_of, crate::specs::Asked::asked_of))]
pub fn step<F: Files, L: Ledger>(
    alloc: Global,
    state: &mut State,
    files: &mut F,
    line: &[u8],
    steps: &mut Steps<L>,
) -> Reply
    requires { IsSound state.old }
    ensures effect { HasRun ⟦<F as Files>⟧ (λ map. step_of state.old map line.now) state.old files.old result state.new files.new }
    ensures told { IsTrue (F.tells files.new) → IsTrue (F.tells files.old) }
    ensures cause { CountsFaults (is_faulted result) (F.faults files.old) (F.faults files.new) }
    ensures log { IsLogChange (log_change (is_refused result) (asked_of line.now)) state.old.log_open state.new.log_open }
{
    if line.len() > MOST_LINE {
        return refuse(alloc, Refusal::LineTooLong);
    }
    match read_command(line) {
        Err(fault) => refuse(alloc, Refusal::WrongWord(fault)),
        Ok(command) => run(alloc, state, files, command, steps),
    }
}

// Runs a command, by its group.
#[tactic(auto, unfolding(crate::specs::Effects::command_plan))]
fn run<F: Files, L: Ledger>(
    alloc: Global,
    state: &mut State,
    files: &mut F,
    command: Command<'_>,
    steps: &mut Steps<L>,
) -> Reply
    requires name { HasName (meaning_of command) }
    requires sound { IsSound state.old }
    ensures effect { HasRun ⟦<F as Files>⟧ (effect_in (command_plan (meaning_of command.entry) state.old) state.old) state.old files.old result state.new files.new }
    ensures told { IsTrue (F.tells files.new) → IsTrue (F.tells files.old) }
    ensures cause { CountsFaults (is_faulted result) (F.faults files.old) (F.faults files.new) }
{
    match group_of(command) {
        Group::Database => run_database(alloc, state, files, command),
        Group::Settings => run_setting(alloc, state, command),
        Group::Edits => run_edit(alloc, state, command, steps),
        Group::Session => run_proof(alloc, state, command, steps),
    }
}

// Runs a command on the database.
fn run_database<F: Files>(
    alloc: Global,
    state: &mut State,
    files: &mut F,
    command: Command<'_>,
) -> Reply
    requires { HasName (meaning_of command) }
    ensures effect { HasRun ⟦<F as Files>⟧ (effect_in (database_plan (meaning_of command.entry) state.old) state.old) state.old files.old result state.new files.new }
    ensures told { IsTrue (F.tells files.new) → IsTrue (F.tells files.old) }
    ensures cause { CountsFaults (is_faulted result) (F.faults files.old) (F.faults files.new) }
{
    match perform(alloc, state, files, command) {
        Err(reply) => reply,
        Ok((text, change)) => {
            apply_change(state, change);
            Reply::Done {
                text,
                refused: false,
            }
        }
    }
}

// Carries out the plan of a command on the database, but for its change.
fn perform<F: Files>(
    alloc: Global,
    state: &State,
    files: &mut F,
    command: Command<'_>,
) -> Result<(Text, Change), Reply>
    requires { HasName (meaning_of command) }
    ensures effect { Performs ⟦<F as Files>⟧ (database_plan (meaning_of command.entry) state.now) files.old result files.new }
    ensures told { IsTrue (F.tells files.new) → IsTrue (F.tells files.old) }
    ensures cause { CountsFaults (is_faulted (reply_in result)) (F.faults files.old) (F.faults files.new) }
{
    match plan(alloc, state, command) {
        Err(refusal) => Err(refuse(alloc, refusal)),
        Ok(call) => call_files(alloc, files, call),
    }
}

// Runs a command on settings and logs.
fn run_setting(alloc: Global, state: &mut State, command: Command<'_>) -> Reply
    ensures { Replies (setting_answer (meaning_of command.entry) state.old) state.old result state.new }
{
    match tell_setting(alloc, state, command) {
        Err(reply) => reply,
        Ok((text, change)) => {
            apply_change(state, change);
            Reply::Done {
                text,
                refused: false,
            }
        }
    }
}

// The text of the answer to such a command, and its change; or the reply where it is refused.
fn tell_setting(alloc: Global, state: &State, command: Command<'_>) -> Result<(Text, Change), Reply>
    ensures { Tells (setting_answer (meaning_of command.entry) state.now) result }
{
    match setting_answer(alloc, state, command) {
        Err(refusal) => Err(refuse(alloc, refusal)),
        Ok(done) => tell(alloc, done),
    }
}

// Runs an edit of the open proof, and tells its counts, which takes no memory.
fn run_edit<L: Ledger>(
    alloc: Global,
    state: &mut State,
    command: Command<'_>,
    steps: &mut Steps<L>,
) -> Reply
    requires { IsSound state.old }
    ensures { Replies (edit_answer (meaning_of command.entry) state.old) state.old result state.new }
{
    match edit(alloc, state, command, steps) {
        Err(refusal) => refuse(alloc, refusal),
        Ok(counts) => Reply::Done {
            text: Text::counts(alloc, counts.steps, counts.unknown, counts.pending),
            refused: false,
        },
    }
}

// Runs a command on the open proof as a whole, or on the session.
fn run_proof<L: Ledger>(
    alloc: Global,
    state: &mut State,
    command: Command<'_>,
    steps: &mut Steps<L>,
) -> Reply
    requires { IsSound state.old }
    ensures { Replies (proof_answer (meaning_of command.entry) state.old) state.old result state.new }
{
    match tell_answer(alloc, state, command, steps) {
        Err(reply) => reply,
        Ok((text, change)) => {
            apply_change(state, change);
            Reply::Done {
                text,
                refused: false,
            }
        }
    }
}

// The text of the answer to such a command, and its change; or the reply where it is refused.
fn tell_answer<L: Ledger>(
    alloc: Global,
    state: &State,
    command: Command<'_>,
    steps: &mut Steps<L>,
) -> Result<(Text, Change), Reply>
    requires { IsSound state.now }
    ensures { Tells (proof_answer (meaning_of command.entry) state.now) result }
{
    match proof_answer(alloc, state, command, steps) {
        Err(refusal) => Err(refuse(alloc, refusal)),
        Ok(done) => tell(alloc, done),
    }
}
