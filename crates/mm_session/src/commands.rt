ghost use Rattle.std.specs.Prelude.{◌≡◌, [], IfOk, slice_index_or};
ghost use Rattle.mm_base.specs.Outside.{CountsFaults};
ghost use Rattle.mm_lines.specs.Reader.{has_failed};
ghost use Rattle.mm_session.specs.Coming.{line_in, no_line, NextIs};

use crate::word::Word;
use mm_base::{Memory, Source};
use mm_lines::{LineReader, Next, Stopped};
use std::alloc::Global;

/// Where the last command stands.
#[derive(Clone, Copy)]
pub enum Last {
    /// It is the word with this index.
    Word(usize),
    /// It is the line that the reader found last.
    Line,
}

/// The commands of a session: its words, and then the lines of its input.
#[derive(Drop)]
pub struct Commands<'a> {
    pub words: &'a [Word],
    /// How many words were commands.
    pub next: usize,
    pub last: Last,
    pub reader: LineReader,
}

impl<'a> Commands<'a> {
    /// All of them are to come.
    pub fn new(alloc: Global, words: &'a [Word]) -> Result<Commands<'a>, Memory>
        ensures words { IfOk result (λ c. c.words.now ≡ words.now) }
        ensures next { IfOk result (λ c. c.next ≡ 0) }
        ensures reader { IfOk result (λ c. c.reader ≡ no_line) }
    {
        Ok(Commands {
            words,
            next: 0,
            last: Last::Line,
            reader: LineReader::new(alloc)?,
        })
    }

    /// The last command; of a line that is too long its first bytes.
    pub fn line(&self) -> &[u8]
        ensures { result.now ≡ line_in self.now }
    {
        match self.last {
            Last::Word(index) => word_at(self.words, index),
            Last::Line => self.reader.line(),
        }
    }

    /// Finds the next command. Where no word is left, it is a line of the input.
    pub fn next<S: Source>(&mut self, input: &mut S) -> Result<Next, Stopped>
        ensures next { NextIs ⟦<S as Source>⟧ self.old input.old result self.new input.new }
        ensures cause { CountsFaults (has_failed result) (S.faults input.old) (S.faults input.new) }
    {
        if self.next < self.words.len() {
            self.last = Last::Word(self.next);
            self.next += 1;
            return Ok(Next::Line);
        }
        self.last = Last::Line;
        self.reader.next_line(input)
    }
}

// The word with an index; no byte where there is none.
fn word_at(words: &[Word], index: usize) -> &[u8]
    ensures { result.now ≡ slice_index_or words.now index [] }
{
    match words.get(index) {
        Some(word) => word.bytes(),
        None => &[],
    }
}
