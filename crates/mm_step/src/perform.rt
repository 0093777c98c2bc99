//! The calls that commands make on the files: each is said once, for all commands.

ghost use Rattle.std.specs.Prelude.{◌≡◌, IsTrue, None, Ok, false, true};
ghost use Rattle.mm_base.specs.Files.{Finds};
ghost use Rattle.mm_base.specs.Name.{is_name_lem};
ghost use Rattle.mm_base.specs.Outside.{CountsFaults};
ghost use Rattle.mm_shell.specs.Actions.{Fetches, Puts};
ghost use Rattle.mm_shell.specs.Texts.{report_text};
ghost use Rattle.mm_database_commands.specs.Commands.{PutsUnderName, action_of, loaded, writing};
ghost use Rattle.mm_step.specs.Effects.{Meets, effect_by, is_faulted};
ghost use Rattle.mm_step.specs.Ran.{Performs, reply_in, state_in};

use crate::reply::{Reply, refuse, tell, text_told};
use mm_base::{Fetched, Files, FilesFault};
use mm_database_commands::{Call, MOST_FETCHED, load};
use mm_shell::{Change, DatabaseRef, Report, Text, Word};
use std::alloc::Global;

/// Makes the call of a command, if it makes one.
pub fn call_files<F: Files>(
    alloc: Global,
    files: &mut F,
    call: Call<'_>,
) -> Result<(Text, Change), Reply>
    requires { PutsUnderName (Ok call) }
    ensures effect { Performs ⟦<F as Files>⟧ (Ok (action_of call.entry)) files.old result files.new }
    ensures told { IsTrue (F.tells files.new) → IsTrue (F.tells files.old) }
    ensures cause { CountsFaults (is_faulted (reply_in result)) (F.faults files.old) (F.faults files.new) }
{
    match call {
        Call::Does(done) => tell(alloc, done),
        Call::Loads(name) => fetch(alloc, files, name),
        Call::Puts(name, database, report) => put(alloc, files, name, database, report),
    }
}

// Fetches the file of a name, to be the database.
fn fetch<F: Files>(alloc: Global, files: &mut F, name: Word<'_>) -> Result<(Text, Change), Reply>
    ensures effect { Performs ⟦<F as Files>⟧ (Ok (Fetches name.entry (loaded name.entry))) files.old result files.new }
    ensures told { IsTrue (F.tells files.new) → IsTrue (F.tells files.old) }
    ensures cause { CountsFaults (is_faulted (reply_in result)) (F.faults files.old) (F.faults files.new) }
{
    match files.fetch(alloc, name.bytes(), MOST_FETCHED) {
        Err(FilesFault::Failed) => Err(Reply::Faulted),
        Err(FilesFault::Memory) => Err(Reply::Starved), // for the file's bytes
        Ok(found) => tell_found(alloc, name, found),
    }
}

// Tells of what was found under a name.
fn tell_found(
    alloc: Global,
    name: Word<'_>,
    found: Option<Fetched>,
) -> Result<(Text, Change), Reply>
    ensures meets { (file : _) → Finds file 134217729 found → (s : _) → Meets (effect_by (loaded name.entry file) s None true true) s (reply_in result) (state_in result s) }
    ensures fine { is_faulted (reply_in result) ≡ false }
{
    match load(alloc, name, found) {
        Ok(done) => tell(alloc, done),
        Err(refusal) => Err(refuse(alloc, refusal)),
    }
}

// Writes the bytes of the database under a name.
fn put<F: Files>(
    alloc: Global,
    files: &mut F,
    name: Word<'_>,
    database: DatabaseRef<'_>,
    report: Report<'_>,
) -> Result<(Text, Change), Reply>
    requires { IsTrue (is_name_lem name) }
    ensures effect { Performs ⟦<F as Files>⟧ (Ok (Puts name.entry database.entry (writing report.entry))) files.old result files.new }
    ensures told { IsTrue (F.tells files.new) → IsTrue (F.tells files.old) }
    ensures cause { CountsFaults (is_faulted (reply_in result)) (F.faults files.old) (F.faults files.new) }
{
    // The text is made first: where there is no memory for it, no file is reached.
    match text_told(alloc, report) {
        Err(_) => Err(Reply::Starved),
        Ok(text) => put_told(alloc, files, name, database, text),
    }
}

// Writes the bytes of the database under a name, where the text of the report is made.
fn put_told<F: Files>(
    alloc: Global,
    files: &mut F,
    name: Word<'_>,
    database: DatabaseRef<'_>,
    text: Text,
) -> Result<(Text, Change), Reply>
    requires { IsTrue (is_name_lem name) }
    ensures effect { (report : _) → text ≡ report_text report → Performs ⟦<F as Files>⟧ (Ok (Puts name.entry database.entry (writing report))) files.old result files.new }
    ensures told { IsTrue (F.tells files.new) → IsTrue (F.tells files.old) }
    ensures cause { CountsFaults (is_faulted (reply_in result)) (F.faults files.old) (F.faults files.new) }
{
    match files.replace(alloc, name.bytes(), database.database().bytes()) {
        Err(FilesFault::Failed) => Err(Reply::Faulted),
        Err(FilesFault::Memory) => Err(Reply::Starved),
        Ok(()) => Ok((text, Change::Writes)),
    }
}
