//! Marks on numbers.

ghost use Rattle.std.specs.Prelude.{◌≡◌, ◌<◌, ◌||◌, ◌==◌, ℕ, [], false, OnOk, OnErr, length};
ghost use Rattle.std.specs.List.{list_any};
ghost use Rattle.mm_tables.specs.Marked.{is_marked};

use std::alloc::{AllocError, Global};
use std::marker::Model;

/// Marks on numbers, which are all taken away at once: a stamp for each number, 0 at
/// first, and the stamp of the turn, by which a number is marked.
#[derive(Drop)]
pub struct Marks {
    stamps: Vec<u32>,
    turn: u32,
}

impl Model for Marks {
    ghost use Rattle.std.specs.Prelude.{List, Bool, ◌≤◌, ◌<◌, All};
    ghost use Rattle.mm_tables.specs.Marked.{flags_of};

    ghost Value = { List Bool };

    ghost view = { λ m. flags_of m.stamps.items m.turn };

    ghost invariant = { λ m. (0 < m.turn) × All (λ s. s ≤ m.turn) m.stamps.items };
}

impl Marks {
    pub fn new(alloc: Global) -> Marks
        ensures { result ≡ [] }
    {
        Marks {
            stamps: Vec::new(alloc),
            turn: 1,
        }
    }

    /// Takes all marks away.
    pub fn clear(&mut self)
        ensures { (n : ℕ) → is_marked self.new n ≡ false }
    {
        if self.turn == u32::MAX {
            self.stamps.clear();
            self.turn = 1;
        } else {
            self.turn += 1;
        }
    }

    /// Makes room for a number's stamp.
    pub(crate) fn reach(&mut self, number: u32) -> Result<(), AllocError>
        ensures reached { OnOk result (number < length self.new) }
        ensures same { (n : ℕ) → is_marked self.new n ≡ is_marked self.old n }
        ensures err { OnErr result (self.new ≡ self.old) }
    {
        if number as usize >= self.stamps.len() {
            self.stamps.resize(number as usize + 1, 0)?;
        }
        Ok(())
    }

    pub(crate) fn stamp(&mut self, number: u32)
        requires { number < length self.old }
        ensures { (n : ℕ) → is_marked self.new n ≡ (is_marked self.old n || n == number) }
    {
        self.stamps[number as usize] = self.turn;
    }

    /// Marks a number; out of memory, the marks are as they were.
    pub fn mark(&mut self, number: u32) -> Result<(), AllocError>
        ensures ok { OnOk result ((n : ℕ) → is_marked self.new n ≡ (is_marked self.old n || n == number)) }
        ensures err { OnErr result (self.new ≡ self.old) }
    {
        self.reach(number)?;
        self.stamp(number);
        Ok(())
    }

    pub fn is_marked(&self, number: u32) -> bool
        ensures { result ≡ is_marked self.now number }
    {
        let place = number as usize;
        place < self.stamps.len() && self.stamps[place] == self.turn
    }
}
