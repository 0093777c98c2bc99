//! Sessions over files that fail, over an input that comes in pieces, and over each kind of these in memory.

use crate::databases::{WORDS, WORDS_SAVED};
use crate::session::{ROOM, files_with, replayed, run_session, typed};
use mm_base::{Failed, MemFiles, MemSink, MemSource, Source, SureSink, SureSource, is_name};
use std::alloc::Global;
use std::test::Fail;

/// The smallest session with a proof in hand.
const LEFT: &str = "\
MM> READ words.mm
Read: labelled 8, axioms 5, theorems 1.
MM> PROVE abc
Steps 1, unknown 1, pending 0.
MM-PA> EXIT /FORCE
MM> \n";

/// The two files, where these calls fail.
fn failing(alloc: Global, calls: &[u64]) -> Result<MemFiles, Fail> {
    let mut files = MemFiles::new(alloc, calls)?;
    for (name, bytes) in [
        (b"words.mm".as_slice(), WORDS),
        (b"out.mm".as_slice(), b"old\n".as_slice()),
    ] {
        if is_name(name) {
            files.add(alloc, name, bytes)?;
        }
    }
    Ok(files)
}

#[test]
fn both_kinds_in_memory_give_one_transcript(rt: HostRuntime) -> Result<(), Fail> {
    let alloc = rt.alloc();
    let mut files = files_with(alloc, b"words.mm", WORDS)?;
    let (status, text) = replayed(alloc, &mut files, LEFT)?;
    assert_eq!(rt; status, 0);
    assert_eq!(rt; text.as_slice(), LEFT.as_bytes());
    let mut files = failing(alloc, &[])?;
    let mut input = MemSource::new(alloc, typed(alloc, LEFT)?.as_slice(), &[])?;
    let mut screen = MemSink::new(alloc, ROOM, &[])?;
    let end = run_session(alloc, &mut files, &mut input, &mut screen)?;
    assert_eq!(rt; end.status, 0);
    assert_eq!(rt; screen.held(), LEFT.as_bytes());
    Ok(())
}

/// A file that isn't written.
const FAULTED: &str = "\
MM> READ words.mm
Read: labelled 8, axioms 5, theorems 1.
MM> PROVE abc
Steps 1, unknown 1, pending 0.
MM-PA> ASSIGN LAST cat
Steps 3, unknown 2, pending 1.
MM-PA> SAVE NEW_PROOF
Saved abc: incomplete, 3 steps.
MM-PA> WRITE SOURCE out.mm
?C40: file fault
MM-PA> \n";

/// The same, and it is written at the second trial.
const WRITTEN: &str = "\
MM> READ words.mm
Read: labelled 8, axioms 5, theorems 1.
MM> PROVE abc
Steps 1, unknown 1, pending 0.
MM-PA> ASSIGN LAST cat
Steps 3, unknown 2, pending 1.
MM-PA> SAVE NEW_PROOF
Saved abc: incomplete, 3 steps.
MM-PA> WRITE SOURCE out.mm
?C40: file fault
MM-PA> WRITE SOURCE out.mm
Wrote out.mm.
MM-PA> \n";

#[test]
fn a_file_is_written_at_the_second_trial(rt: HostRuntime) -> Result<(), Fail> {
    let alloc = rt.alloc();
    for (transcript, out) in [(FAULTED, b"old\n".as_slice()), (WRITTEN, WORDS_SAVED)] {
        let mut files = failing(alloc, &[2])?;
        let mut input = SureSource::new(alloc, typed(alloc, transcript)?.as_slice())?;
        let mut screen = SureSink::new(alloc, ROOM)?;
        let end = run_session(alloc, &mut files, &mut input, &mut screen)?;
        assert_eq!(rt; end.status, 1);
        assert_eq!(rt; end.faulted.as_slice(), [5].as_slice());
        assert_eq!(rt; screen.held(), transcript.as_bytes());
        assert!(rt; files.look(b"words.mm") == Some(WORDS));
        assert!(rt; files.look(b"out.mm") == Some(out));
    }
    Ok(())
}

/// Gives so many bytes at the next call, and at most so many at each later one.
#[derive(Drop)]
struct Cut {
    source: SureSource,
    next: usize,
    most: usize,
}

impl Source for Cut {
    ghost use Rattle.std.specs.Prelude.{false, []};

    ghost tells = { λ s. false };

    ghost left = { λ s. [] };

    ghost faults = { λ s. 0 };

    fn read(&mut self, buf: &mut [u8]) -> Result<usize, Failed> {
        let (front, _) = buf.split_at_mut(buf.len().min(self.next));
        self.next = self.most;
        self.source.read(front)
    }
}

/// Lines with either end, an empty one, and a last one with none.
const INPUT: &[u8] = b"READ words.mm\r\n\nPROVE abc\nASSIGN LAST sa\r\n!x\nEXIT\nFOO";

/// What a session of that input writes, in whatever pieces it comes.
const PIECED: &[u8] = b"\
MM> READ words.mm
Read: labelled 8, axioms 5, theorems 1.
MM> \nMM> PROVE abc
Steps 1, unknown 1, pending 0.
MM-PA> ASSIGN LAST sa
?C22: step 1 has no unifier
MM-PA> !x
MM-PA> EXIT
MM> FOO
?C1: no keyword for word 1
MM> \n";

/// What a session writes whose input comes in such pieces.
fn pieced(alloc: Global, next: usize, most: usize) -> Result<Vec<u8>, Fail> {
    let mut files = files_with(alloc, b"words.mm", WORDS)?;
    let mut input = Cut {
        source: SureSource::new(alloc, INPUT)?,
        next,
        most,
    };
    let mut screen = SureSink::new(alloc, ROOM)?;
    let _end = run_session(alloc, &mut files, &mut input, &mut screen)?;
    Ok(screen.held().to_vec(alloc)?)
}

#[test]
fn pieces_of_the_input_do_not_matter(rt: HostRuntime) -> Result<(), Fail> {
    for count in 1..=INPUT.len() {
        for most in [count, INPUT.len()] {
            let text = pieced(rt.alloc(), count, most)?;
            assert_eq!(rt; text.as_slice(), PIECED, "{count} and {most}");
        }
    }
    Ok(())
}
