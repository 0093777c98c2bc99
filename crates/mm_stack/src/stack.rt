//! The stack of the proof machine, and the results of its steps.

ghost use Rattle.std.specs.Prelude.{◌≡◌, ◌≤◌, [], length, take, slice_index_or, OnOk};
ghost use Rattle.mm_stack.specs.Entries.{symbols_of, result_at};
ghost use Rattle.mm_stack.specs.Running.{start, next_number, pushing};

use std::alloc::{AllocError, Global};
use std::marker::Model;

/// Where the symbols of a result stand.
#[derive(Clone, Copy)]
pub struct Part {
    pub start: usize,
    pub end: usize,
}

/// A stack of symbol strings, the oldest first, and the result of each step, which is the string that it pushed. The symbols
/// of results stand in one buffer, and an entry of the stack is the number of a result: none is copied.
#[derive(Drop)]
pub struct Stack {
    symbols: Vec<u32>,
    parts: Vec<Part>,
    numbers: Vec<usize>,
}

impl Model for Stack {
    ghost use Rattle.mm_stack.specs.Running.{Progress};
    ghost use Rattle.mm_stack.specs.Entries.{results_in, entries_in, AreKept};

    ghost Value = { Progress };

    ghost view = { λ s. record { stack = entries_in (results_in s.symbols.items s.parts.items) s.numbers.items; results = results_in s.symbols.items s.parts.items } };

    ghost invariant = { λ s. AreKept s.symbols.items s.parts.items s.numbers.items };
}

/// The part with this number, from 0; an empty one where there is none.
fn part_at(parts: &[Part], number: usize) -> Part
    ensures { result ≡ slice_index_or parts.now number (record { start = 0; end = 0 }) }
{
    match parts.get(number) {
        Some(part) => *part,
        None => Part { start: 0, end: 0 },
    }
}

/// The symbols of a part.
fn symbols_of(symbols: &[u32], part: Part) -> &[u32]
    requires order { part.start ≤ part.end }
    requires within { part.end ≤ length symbols.now }
    ensures { result.now ≡ symbols_of symbols.now part }
{
    &symbols[part.start..part.end]
}

impl Stack {
    /// The empty stack, before the first step. It takes no memory.
    pub fn new(alloc: Global) -> Stack
        ensures { result ≡ start }
    {
        Stack {
            symbols: Vec::new(alloc),
            parts: Vec::new(alloc),
            numbers: Vec::new(alloc),
        }
    }

    /// How many entries there are.
    pub fn count(&self) -> usize
        ensures { result ≡ length self.now.stack }
    {
        self.numbers.len()
    }

    /// The number of the next step, from 1.
    pub fn next_number(&self) -> u64
        ensures { result ≡ next_number self.now }
    {
        self.parts.len() as u64 + 1
    }

    /// The entry with this number, from 0; no symbols where there is none.
    pub fn entry(&self, number: usize) -> &[u32]
        ensures { result.now ≡ slice_index_or self.now.stack number [] }
    {
        match self.numbers.get(number) {
            Some(result) => symbols_of(&self.symbols, part_at(&self.parts, *result)),
            None => &[],
        }
    }

    /// Pushes an entry, the result of the next step.
    pub fn push(&mut self, entry: &[u32]) -> Result<(), AllocError>
        ensures { OnOk result (self.new ≡ pushing self.old entry.now) }
    {
        let start = self.symbols.len();
        self.symbols.extend_from_slice(entry)?;
        self.parts.push(Part {
            start,
            end: self.symbols.len(),
        })?;
        self.numbers.push(self.parts.len() - 1)?;
        Ok(())
    }

    /// Pushes the result with this number, from 0, as that of the next step too.
    pub fn repeat(&mut self, number: usize) -> Result<(), AllocError>
        ensures { OnOk result (self.new ≡ pushing self.old (result_at self.old.results number)) }
    {
        let part = part_at(&self.parts, number);
        self.parts.push(part)?;
        self.numbers.push(self.parts.len() - 1)?;
        Ok(())
    }

    /// Pops all but the oldest `count` entries. The results stay.
    pub fn truncate(&mut self, count: usize)
        ensures stack { self.new.stack ≡ take count self.old.stack }
        ensures results { self.new.results ≡ self.old.results }
    {
        self.numbers.truncate(count);
    }
}
