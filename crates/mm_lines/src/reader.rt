ghost use Rattle.std.specs.Prelude.{◌≡◌, ◌<◌, ◌≤◌, ◌||◌, Ok, Err, true, false, [], IfOk, IsTrue, length, nat_le};
ghost use Rattle.std.specs.List.{list_any};
ghost use Rattle.mm_base.specs.Outside.{CountsFaults};
ghost use Rattle.mm_lines.specs.Limits.{chunk_size, most_taken};
ghost use Rattle.mm_lines.specs.Lines.{lines_of};
ghost use Rattle.mm_lines.specs.Parts.{is_lf};
ghost use Rattle.mm_lines.specs.Reader.{Moves, Reads, LinesFollow, is_silent, all_of, has_failed, found_lf};

use crate::chunk::Chunk;
use crate::cut::{give, move_to_lf};
use crate::front::Front;
use crate::next::{Next, Stopped};
use mm_base::{Memory, Source};
use std::alloc::Global;
use std::marker::Model;

// How many bytes are taken from a source at most.
const MOST_TAKEN: u64 = 4_294_967_296;

/// Reads the lines of a source, one by one.
///
/// It takes its memory when it is made. Of a line of more than 65,536 bytes it keeps the first 65,537.
/// After an error it may be asked again: what it holds of the line that is begun stays.
#[derive(Debug, Drop)]
pub struct LineReader {
    chunk: Chunk,
    begun: Front,
    line: Front,
    taken: u64,
    ended: bool,
}

impl Model for LineReader {
    ghost use Rattle.std.specs.Prelude.{◌++◌};
    ghost use Rattle.mm_lines.specs.State.{ReaderState, IsSound};

    ghost Value = { ReaderState };

    ghost view = { λ r. record { ahead = r.begun ++ r.chunk; line = r.line; taken = r.taken; ended = r.ended } };

    ghost invariant = { λ r. IsSound r.begun r.chunk r.taken r.ended };
}

impl LineReader {
    /// A reader that has taken nothing yet.
    pub fn new(alloc: Global) -> Result<LineReader, Memory>
        ensures { IfOk result (λ r. r ≡ record { ahead = []; line = []; taken = 0; ended = false }) }
    {
        Ok(LineReader {
            chunk: Chunk::new(alloc)?,
            begun: Front::new(alloc)?,
            line: Front::new(alloc)?,
            taken: 0,
            ended: false,
        })
    }

    /// The line that was found last, or its first 65,537 bytes.
    pub fn line(&self) -> &[u8]
        ensures { result.now ≡ self.now.line }
    {
        self.line.bytes()
    }

    /// Finds the next line, which stands in `line` then. It takes no memory.
    ///
    /// The source is asked only where no line is at hand, and no more once it has said that it ends.
    pub fn next_line<S: Source>(&mut self, source: &mut S) -> Result<Next, Stopped>
        ensures reads { Reads ⟦<S as Source>⟧ self.old source.old result self.new source.new }

        // The lines at hand and to come were this one and those at hand and to come now.
        ensures lines { IsTrue (S.tells source.new) → LinesFollow result (lines_of (all_of self.old (S.left source.old))) self.new.line (lines_of (all_of self.new (S.left source.new))) }
        ensures over { self.old.ended ≡ true → (result ≡ Ok Next.End) × (self.new ≡ self.old) }
        ensures silent { IsTrue (is_silent self.old) → source.new ≡ source.old }
        ensures most { self.new.taken ≤ most_taken }
        ensures few { IfOk result (λ _. length self.new.ahead ≤ chunk_size) }
        ensures cause { CountsFaults (has_failed result) (S.faults source.old) (S.faults source.new) }
    {
        if self.ended {
            return Ok(Next::End);
        }
        if read_line(&mut self.chunk, &mut self.begun, &mut self.taken, source)? {
            give(&mut self.begun, &mut self.line, true);
            return Ok(Next::Line);
        }
        self.ended = true;
        if self.begun.bytes().is_empty() {
            return Ok(Next::End);
        }
        give(&mut self.begun, &mut self.line, false);
        Ok(Next::Line)
    }
}

// Moves bytes behind those of the line that is begun, up to an LF or the end of the input, and says
// whether there is an LF. Where none is at hand, it takes more from the source.
fn read_line<S: Source>(
    chunk: &mut Chunk,
    begun: &mut Front,
    taken: &mut u64,
    source: &mut S,
) -> Result<bool, Stopped>
    requires { taken.old ≤ most_taken }
    ensures moves { Moves ⟦<S as Source>⟧ chunk.old begun.old taken.old source.old (found_lf result) chunk.new begun.new taken.new source.new }
    ensures end { result ≡ Ok false → IsTrue (S.tells source.new) → S.left source.new ≡ [] }
    ensures spent { result ≡ Err Stopped.Spent → taken.new ≡ most_taken }
    ensures failed { result ≡ Err Stopped.Failed → taken.new < most_taken }
    ensures unspent { result ≡ Ok false → taken.new < most_taken }
    ensures silent { IsTrue (list_any is_lf chunk.old || nat_le most_taken taken.old) → source.new ≡ source.old }
    ensures most { taken.new ≤ most_taken }
    ensures few { length chunk.new ≤ chunk_size }
    ensures cause { CountsFaults (has_failed result) (S.faults source.old) (S.faults source.new) }
{
    loop {
        if move_to_lf(chunk, begun) {
            return Ok(true);
        }
        if *taken == MOST_TAKEN {
            return Err(Stopped::Spent);
        }
        let count = chunk.fill(source, MOST_TAKEN - *taken)?;
        if count == 0 {
            return Ok(false);
        }
        *taken += count;
    }
}
