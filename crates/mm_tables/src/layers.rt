//! What is in force, in layers.

ghost use Rattle.std.specs.Prelude.{◌≡◌, ◌<◌, [], ◌∷◌, length, slice_get, Some, OnOk, OnErr};
ghost use Rattle.mm_tables.specs.Layered.{nothing, pushed, begun, ended, marked};

use crate::trail::{Node, Trail};
use std::alloc::{AllocError, Global};
use std::marker::Model;

/// What is in force now, what was where each open block began, and what was at each moment that was noted. No list is
/// stored for a block or a moment: each is where its chain of nodes begins, so each call takes the same time.
#[derive(Drop)]
pub struct Layers {
    nodes: Vec<Node>,
    top: u32,
    outer: Vec<u32>,
    moments: Vec<u32>,
}

impl Model for Layers {
    ghost use Rattle.std.specs.Prelude.{ℕ};
    ghost use Rattle.mm_tables.specs.Layered.{Layered};
    ghost use Rattle.mm_tables.specs.Trails.{layers_of, AreChains};

    ghost Value = { Layered ℕ };

    ghost view = { λ l. layers_of l.nodes.items l.top l.outer.items l.moments.items };

    ghost invariant = { λ l. AreChains l.nodes.items l.top l.outer.items l.moments.items };
}

impl Layers {
    /// Nothing is in force, no block is open, and no moment was noted.
    pub fn new(alloc: Global) -> Layers
        ensures { result ≡ nothing }
    {
        Layers {
            nodes: Vec::new(alloc),
            top: 0,
            outer: Vec::new(alloc),
            moments: Vec::new(alloc),
        }
    }

    /// A value comes into force. This fails too where 4,294,967,295 values have come before.
    pub fn push(&mut self, value: u32) -> Result<(), AllocError>
        ensures ok { OnOk result (self.new ≡ pushed self.old (value ∷ [])) }
        ensures err { OnErr result (self.new ≡ self.old) }
    {
        if self.nodes.len() >= u32::MAX as usize {
            return Err(AllocError);
        }
        self.nodes.push(Node {
            value,
            below: self.top,
        })?;
        self.top = self.nodes.len() as u32;
        Ok(())
    }

    /// A block begins.
    pub fn open(&mut self) -> Result<(), AllocError>
        ensures ok { OnOk result (self.new ≡ begun self.old) }
        ensures err { OnErr result (self.new ≡ self.old) }
    {
        self.outer.push(self.top)?;
        Ok(())
    }

    /// The innermost open block ends: what was in force where it began is again. Where none is open, nothing is in force
    /// any more.
    pub fn close(&mut self)
        ensures { self.new ≡ ended self.old }
    {
        self.top = self.outer.pop().unwrap_or(0);
    }

    /// The moment is noted.
    pub fn note(&mut self) -> Result<(), AllocError>
        ensures ok { OnOk result (self.new ≡ marked self.old) }
        ensures err { OnErr result (self.new ≡ self.old) }
    {
        self.moments.push(self.top)?;
        Ok(())
    }

    /// How many moments were noted.
    pub fn moments(&self) -> usize
        ensures { result ≡ length self.now.moments }
    {
        self.moments.len()
    }

    /// What is in force now.
    pub fn now(&self) -> Trail<'_>
        ensures { result ≡ self.now.now }
    {
        Trail {
            nodes: self.nodes.as_slice(),
            top: self.top,
        }
    }

    /// What was in force at a moment, counted from 0.
    pub fn at(&self, moment: u32) -> Trail<'_>
        requires { moment < length self.now.moments }
        ensures { slice_get self.now.moments moment ≡ Some result }
    {
        Trail {
            nodes: self.nodes.as_slice(),
            top: self.moments[moment as usize],
        }
    }
}
