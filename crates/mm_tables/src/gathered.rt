//! Numbers that are gathered, with a quick test of which are there.

ghost use Rattle.std.specs.Prelude.{◌≡◌, ◌==◌, [], ◌∷◌, ◌++◌, OnOk, OnErr, length};
ghost use Rattle.std.specs.List.{list_any};
ghost use Rattle.mm_tables.specs.Marked.{with_number};

use crate::marks::Marks;
use std::alloc::{AllocError, Global};
use std::marker::Model;

/// Numbers in the order in which they came, and a mark on each. Each call takes the same time however many there are.
#[derive(Drop)]
pub struct Gathered {
    items: Vec<u32>,
    marks: Marks,
}

impl Model for Gathered {
    ghost use Rattle.std.specs.Prelude.{◌≡◌, ◌==◌, List, ℕ};
    ghost use Rattle.std.specs.List.{list_any};
    ghost use Rattle.mm_tables.specs.Marked.{is_marked};

    ghost Value = { List ℕ };

    ghost view = { λ g. g.items.items };

    ghost invariant = { λ g. (n : ℕ) → is_marked g.marks n ≡ list_any (λ m. n == m) g.items.items };
}

impl Gathered {
    pub fn new(alloc: Global) -> Gathered
        ensures { result ≡ [] }
    {
        Gathered {
            items: Vec::new(alloc),
            marks: Marks::new(alloc),
        }
    }

    /// Adds a number at the end.
    pub fn push(&mut self, number: u32) -> Result<(), AllocError>
        ensures ok { OnOk result (self.new ≡ self.old ++ number ∷ []) }
        ensures err { OnErr result (self.new ≡ self.old) }
    {
        self.items.reserve(1)?;
        self.marks.reach(number)?;
        self.marks.stamp(number);
        self.items.push(number)?;
        Ok(())
    }

    /// Adds a number at the end, unless it is there.
    pub fn insert(&mut self, number: u32) -> Result<(), AllocError>
        ensures ok { OnOk result (self.new ≡ with_number self.old number) }
        ensures err { OnErr result (self.new ≡ self.old) }
    {
        if self.contains(number) {
            return Ok(());
        }
        self.push(number)
    }

    /// Whether a number is among them.
    pub fn contains(&self, number: u32) -> bool
        ensures { result ≡ list_any (λ n. number == n) self.now }
    {
        self.marks.is_marked(number)
    }

    pub fn len(&self) -> usize
        ensures { result ≡ length self.now }
    {
        self.items.len()
    }

    pub fn is_empty(&self) -> bool
        ensures { result ≡ (length self.now == 0) }
    {
        self.items.is_empty()
    }

    /// The numbers themselves.
    pub fn as_slice(&self) -> &[u32]
        ensures { result.now ≡ self.now }
    {
        self.items.as_slice()
    }

    /// Takes all numbers away.
    pub fn clear(&mut self)
        ensures { self.new ≡ [] }
    {
        self.items.clear();
        self.marks.clear();
    }
}
