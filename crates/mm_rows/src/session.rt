//! How a test runs a session.

ghost use Rattle.std.specs.Prelude.{◌≡◌, ◌<◌, false};
ghost use Rattle.mm_session.specs.Hearing.{AreReady};

use mm_base::{
    Files, Memory, Recorder, Recorders, Sink, Source, Steps, SureFiles, SureSink, SureSource,
    is_name,
};
use mm_session::SessionEnd;
use std::alloc::Global;
use std::marker::Brand;
use std::sync::ledger::{Blank, Ledger};
use std::test::Fail;

/// How many bytes of a transcript a test keeps.
pub const ROOM: u64 = 200_000;

/// Runs the lines of the input as a session of which nobody counts the steps.
pub fn run_session<F: Files, S: Source, K: Sink>(
    alloc: Global,
    files: &mut F,
    input: &mut S,
    screen: &mut K,
) -> Result<SessionEnd, Memory> {
    match Recorders::new(alloc, Vec::new(alloc)) {
        Ok(mut recorders) => Ok(run_in::<Brand, _, _, _>(
            alloc,
            files,
            input,
            screen,
            &mut recorders,
            Blank::new(1),
        )),
        Err((_, e)) => Err(e),
    }
}

/// Runs a session with a ledger of its own.
fn run_in<L: Ledger, F: Files, S: Source, K: Sink>(
    alloc: Global,
    files: &mut F,
    input: &mut S,
    screen: &mut K,
    recorders: &mut Recorders,
    blank: Blank,
) -> SessionEnd
    requires closed { recorders.old.begun ≡ false }
    requires ready { AreReady ⟦<dyn Recorder as Recorder>⟧ recorders.old }
    requires name { blank.name ≡ L.name }
    requires parts { blank.parts ≡ L.parts }
    requires some { 0 < L.parts }
{
    let mut steps = Steps::<L>::new(blank);
    mm_session::run_session(alloc, &[], files, input, screen, recorders, &mut steps)
}

/// The status of a session of these lines of input over these files, and what it writes.
pub fn told<F: Files>(alloc: Global, files: &mut F, input: &[u8]) -> Result<(u8, Vec<u8>), Fail> {
    let mut screen = SureSink::new(alloc, ROOM)?;
    let mut input = SureSource::new(alloc, input)?;
    let end = run_session(alloc, files, &mut input, &mut screen)?;
    Ok((end.status, screen.held().to_vec(alloc)?))
}

/// The lines that a transcript shows after its prompts, LF between them. After the last prompt of a session that ends
/// with its input there is none.
pub fn typed(alloc: Global, transcript: &str) -> Result<Vec<u8>, Memory> {
    let mut input = Vec::new(alloc);
    for line in transcript.lines() {
        if let Some(command) = after_prompt(line) {
            if !input.is_empty() {
                input.push(b'\n')?;
            }
            input.extend_from_slice(command.as_bytes())?;
        }
    }
    Ok(input)
}

/// The rest of a line that begins with a prompt.
fn after_prompt(line: &str) -> Option<&str> {
    line.strip_prefix("MM> ").or(line.strip_prefix("MM-PA> "))
}

/// The same for the lines that this transcript shows.
pub fn replayed<F: Files>(
    alloc: Global,
    files: &mut F,
    transcript: &str,
) -> Result<(u8, Vec<u8>), Fail> {
    let input = typed(alloc, transcript)?;
    told(alloc, files, input.as_slice())
}

/// These bytes as the one file of this name.
pub fn files_with(alloc: Global, name: &[u8], bytes: &[u8]) -> Result<SureFiles, Fail> {
    let mut files = SureFiles::new(alloc);
    if is_name(name) {
        files.add(alloc, name, bytes)?;
    }
    Ok(files)
}
