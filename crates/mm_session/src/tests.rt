ghost use Rattle.std.specs.Prelude.{◌≡◌, ◌<◌, false};
ghost use Rattle.mm_session.specs.Hearing.{AreReady};

use crate::{SessionEnd, Word, run_session};
use mm_base::{
    Files, MemFiles, MemRecorder, MemSink, MemSource, Memory, Recorder, Recorders, Sink, Source,
    Steps, SureFiles, SureSink, SureSource,
};
use std::alloc::Global;
use std::marker::Brand;
use std::sync::ledger::{Blank, Ledger};
use std::test::Fail;

// Runs a session over the kinds in memory that may fail.
fn run(
    alloc: Global,
    words: &[Word],
    files: &mut MemFiles,
    input: &mut MemSource,
    screen: &mut MemSink,
) -> Result<SessionEnd, Memory> {
    match Recorders::new(alloc, Vec::new(alloc)) {
        Ok(mut recorders) => Ok(run_in::<Brand, _, _, _>(
            alloc,
            words,
            files,
            input,
            screen,
            &mut recorders,
            Blank::new(1),
        )),
        Err((_, e)) => Err(e),
    }
}

fn run_in<L: Ledger, F: Files, S: Source, K: Sink>(
    alloc: Global,
    words: &[Word],
    files: &mut F,
    input: &mut S,
    screen: &mut K,
    recorders: &mut Recorders,
    blank: Blank,
) -> SessionEnd
    requires closed { recorders.old.begun ≡ false }
    requires ready { AreReady ⟦<dyn Recorder as Recorder>⟧ recorders.old }
    requires name { blank.name ≡ L.name }
    requires parts { blank.parts ≡ L.parts }
    requires some { 0 < L.parts }
{
    let mut steps = Steps::<L>::new(blank);
    run_session(alloc, words, files, input, screen, recorders, &mut steps)
}

#[test]
fn a_failing_input_or_screen_ends_the_session(rt: HostRuntime) -> Result<(), Fail> {
    let alloc = rt.alloc();
    for (inputs, screens, status, lines, text) in [
        ([1].as_slice(), [].as_slice(), 3, 0, b"MM> ".as_slice()),
        ([].as_slice(), [1].as_slice(), 4, 0, b"".as_slice()),
        ([].as_slice(), [2].as_slice(), 4, 0, b"MM> ".as_slice()),
        ([].as_slice(), [4].as_slice(), 4, 1, b"MM> UN\n".as_slice()),
        (
            [].as_slice(),
            [].as_slice(),
            1,
            1,
            b"MM> UN\n?C2: word 1 is ambiguous\nMM> \n".as_slice(),
        ),
    ] {
        let mut files = MemFiles::new(alloc, &[])?;
        let mut input = MemSource::new(alloc, b"UN\n", inputs)?;
        let mut screen = MemSink::new(alloc, 1000, screens)?;
        let end = run(alloc, &[], &mut files, &mut input, &mut screen)?;
        assert_eq!(rt; end.status, status);
        assert_eq!(rt; end.lines, lines);
        assert_eq!(rt; screen.held(), text);
    }
    Ok(())
}

// READ lines.
fn reads(alloc: Global, count: u64) -> Result<Vec<Word>, Memory> {
    let mut words = Vec::new(alloc);
    for _ in 0..count {
        words.push(Word::new(alloc, b"READ a.mm")?)?;
    }
    Ok(words)
}

#[test]
fn sixty_four_file_faults_are_told_and_the_next_ends_the_session(
    rt: HostRuntime,
) -> Result<(), Fail> {
    let alloc = rt.alloc();
    let mut failing = Vec::new(alloc);
    for n in 0..65 {
        failing.push(n + 1)?;
    }
    let mut files = MemFiles::new(alloc, &failing)?;
    let mut input = MemSource::new(alloc, b"", &[])?;
    let mut screen = MemSink::new(alloc, 10_000, &[])?;
    let words = reads(alloc, 66)?;
    let end = run(alloc, &words, &mut files, &mut input, &mut screen)?;
    assert_eq!(rt; end.status, 6);
    assert_eq!(rt; end.lines, 65);
    failing.truncate(64);
    assert_eq!(rt; end.faulted.as_slice(), failing.as_slice());
    // Prompt, line and text 64 times, then prompt and line.
    assert_eq!(rt; screen.held().len(), 64 * (4 + 10 + 17) + 4 + 10);
    Ok(())
}

// A log, and a second CLOSE LOG.
const LOG: &[u8] = b"OPEN LOG a.log\n!x\nCLOSE LOG\nCLOSE LOG\n";

const LOG_SHOWN: &[u8] = b"\
MM> OPEN LOG a.log
Log opened.
MM> !x
MM> CLOSE LOG
Log closed.
MM> CLOSE LOG
?C38: no log
MM> \n";

// What a recorder hears of it.
const LOG_HEARD: &[u8] = b"MM> !x\nMM> CLOSE LOG\n";

// Two recorders, of which the first fails at no call, as it begins the log, or at the first piece.
#[test]
fn a_recorder_that_fails_is_lost(rt: HostRuntime) -> Result<(), Fail> {
    let alloc = rt.alloc();
    for (failing, lost, heard) in [
        ([].as_slice(), 0, None),
        ([1].as_slice(), 1, None),
        ([2].as_slice(), 1, Some(b"".as_slice())),
    ] {
        let mut live: Vec<Box<dyn Recorder>> = Vec::new(alloc);
        live.push(Box::new(alloc, MemRecorder::new(alloc, 1, 1000, failing)?)?)?;
        live.push(Box::new(alloc, MemRecorder::new(alloc, 1, 1000, &[])?)?)?;
        let Ok(mut recorders) = Recorders::new(alloc, live) else {
            return Err(Fail::from("no memory"));
        };
        let mut files = SureFiles::new(alloc);
        let mut input = SureSource::new(alloc, LOG)?;
        let mut screen = SureSink::new(alloc, 1000)?;
        let end = run_in::<Brand, _, _, _>(
            alloc,
            &[],
            &mut files,
            &mut input,
            &mut screen,
            &mut recorders,
            Blank::new(1),
        );
        assert_eq!(rt; end.status, 1);
        assert_eq!(rt; screen.held(), LOG_SHOWN);
        assert!(rt; !recorders.is_open());
        assert_eq!(rt; recorders.live.len(), 2 - lost);
        assert_eq!(rt; recorders.lost.len(), lost);
        for recorder in &recorders.live {
            assert!(rt; recorder.name_of(1) == Some(b"a.log".as_slice()));
            assert!(rt; recorder.heard(1) == Some(LOG_HEARD));
            assert!(rt; recorder.name_of(2).is_none());
        }
        for recorder in &recorders.lost {
            assert!(rt; recorder.heard(1) == heard);
        }
    }
    Ok(())
}
