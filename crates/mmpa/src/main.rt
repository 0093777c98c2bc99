//! The program `mmpa`: a session over real files, the real input and the real screen.
#![tactic(auto)]

mod arguments;
mod files;
mod input;
mod log;
mod replacing;
mod screen;
#[cfg(test)]
mod tests;

ghost use Rattle.std.specs.Prelude.{◌≡◌, ◌<◌, false};
ghost use Rattle.mm_session.specs.Hearing.{AreReady};

use arguments::{Arguments, read_arguments};
use files::RealFiles;
use input::RealInput;
use log::LogFile;
use mm_base::{Files, Recorder, Recorders, Sink, Source, Steps};
use mm_session::{Word, run_session};
use screen::Screen;
use std::alloc::Global;
use std::io;
use std::marker::Brand;
use std::process::ExitCode;
use std::sync::ledger::{Blank, Ledger};

const USAGE: &str = "\
usage: mmpa [COMMAND ..]
       mmpa --help | --version

Each COMMAND is one word of the command line, as in
    mmpa \"READ demo0.mm\" \"VERIFY PROOF th1\"
Then the lines of the input are commands, up to EXIT or its end.

";

/// Each command that is built, and what it does.
const COMMANDS: [&str; 30] = [
    "READ FILE                        reads a database",
    "VERIFY PROOF PATTERN             verifies the proofs of theorems",
    "SHOW TRACE_BACK LABEL [/AXIOMS]  lists what a statement depends on",
    "SHOW USAGE LABEL [/RECURSIVE]    lists what uses a statement, or depends on it",
    "SHOW NEW_PROOF [/UNKNOWN]        shows the steps of the proof in hand",
    "WRITE SOURCE FILE                writes the database",
    "SET UNDO N                       keeps N edits to undo, from 0 to 1000",
    "SET UNIFICATION_TIMEOUT N        sets the trials of a search for unifiers",
    "SET BRACKETS ON, OFF             whether unifiers keep brackets in pairs",
    "SET EMPTY_SUBSTITUTION OFF       work variables stand for no empty text",
    "OPEN LOG FILE                    keeps what is printed from here on in the file too",
    "CLOSE LOG                        ends the log",
    "PROVE LABEL [/OVERRIDE]          takes the proof of a theorem in hand",
    "ASSIGN STEP LABEL [/OVERRIDE]    makes an unknown step known, by a statement",
    "REPLACE STEP LABEL [/OVERRIDE]   gives a known step another statement",
    "LET VARIABLE $N = TEXT           puts a text for a work variable",
    "LET STEP STEP = TEXT             unifies what a step says with a text",
    "UNIFY STEP STEP [/CHOICE N]      unifies a pending step",
    "UNIFY ALL                        unifies each pending step that has one unifier",
    "INITIALIZE STEP STEP             gives the known steps of a part fresh work variables",
    "INITIALIZE ALL                   gives all known steps fresh work variables",
    "DELETE STEP STEP                 makes a step unknown",
    "DELETE ALL                       makes all steps unknown",
    "DELETE FLOATING_HYPOTHESES       makes the steps of $f hypotheses unknown",
    "IMPROVE STEP [/DEPTH N] [/NO_DISTINCT]  finds a proof of an unknown step",
    "IMPROVE ALL [/DEPTH N] [/NO_DISTINCT]   finds proofs of all unknown steps",
    "UNDO                             takes the last edit back",
    "REDO                             does it again",
    "SAVE NEW_PROOF [/NORMAL] [/COMPRESSED] [/OVERRIDE]  saves the proof into the database",
    "EXIT [/FORCE], QUIT [/FORCE]     leaves the proof in hand, or ends the session",
];

const STATUSES: &str = "
Keywords have no case and may be shortened. The status is 0 where all went well,
1 where a command was refused, 3 where the input failed, 4 where the screen
failed, 5 where memory ran out, 6 where files failed too often and 7 where the
input is too long.
";

const VERSION: &str = "mmpa 0.1.0\n";

/// The status where memory runs out before the session.
const OUT_OF_MEMORY: u8 = 5;

/// What is said where the log was lost.
const LOG_LOST: &str = "mmpa: log lost";

/// The status where the screen fails.
const SCREEN_FAILED: u8 = 4;

fn main(rt: HostRuntime) -> ExitCode {
    match read_arguments(&rt) {
        Arguments::Help => status_after(show_help(&rt)),
        Arguments::Version => status_after(rt.print(VERSION)),
        Arguments::Unread => {
            let _ = rt.eprintln("mmpa: the arguments can't be read");
            ExitCode::from(OUT_OF_MEMORY)
        }
        Arguments::Words(words) => {
            let mut files = RealFiles::new(&rt);
            let mut input = RealInput::new(rt.reader());
            let mut screen = Screen::new(&rt);
            let Ok(system) = rt.clone() else {
                return ExitCode::from(OUT_OF_MEMORY);
            };
            let Ok(log) = Box::new(rt.alloc(), LogFile::new(system)) else {
                return ExitCode::from(OUT_OF_MEMORY);
            };
            let Ok(live) = Vec::from_array(rt.alloc(), [log as Box<dyn Recorder>]) else {
                return ExitCode::from(OUT_OF_MEMORY);
            };
            let Ok(mut recorders) = Recorders::new(rt.alloc(), live) else {
                return ExitCode::from(OUT_OF_MEMORY);
            };
            let status = run::<Brand, _, _, _>(
                rt.alloc(),
                &words,
                &mut files,
                &mut input,
                &mut screen,
                &mut recorders,
                Blank::new(1),
            );
            if !recorders.lost.is_empty() {
                let _ = rt.eprintln(LOG_LOST);
            }
            status
        }
    }
}

/// Runs the session, with a ledger for the steps that its commands make.
fn run<L: Ledger, F: Files, S: Source, K: Sink>(
    alloc: Global,
    words: &[Word],
    files: &mut F,
    input: &mut S,
    screen: &mut K,
    recorders: &mut Recorders,
    blank: Blank,
) -> ExitCode
    requires closed { recorders.old.begun ≡ false }
    requires ready { AreReady ⟦<dyn Recorder as Recorder>⟧ recorders.old }
    requires name { blank.name ≡ L.name }
    requires parts { blank.parts ≡ L.parts }
    requires some { 0 < L.parts }
{
    let mut steps = Steps::<L>::new(blank);
    let end = run_session(alloc, words, files, input, screen, recorders, &mut steps);
    ExitCode::from(end.status)
}

/// Writes how the program is used.
fn show_help(rt: &impl Print) -> io::Result<()> {
    rt.print(USAGE)?;
    for command in COMMANDS {
        rt.println(command)?;
    }
    rt.print(STATUSES)
}

/// The status after a fixed text.
fn status_after(written: io::Result<()>) -> ExitCode {
    match written {
        Ok(()) => ExitCode::SUCCESS,
        Err(_) => ExitCode::from(SCREEN_FAILED),
    }
}
