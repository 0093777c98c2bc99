//! Groups of variables that `$d` statements part, in layers.

ghost use Rattle.std.specs.Prelude.{◌≡◌, ◌<◌, [], ◌∷◌, length, slice_get, Some, OnOk, OnErr, IfOk};
ghost use Rattle.mm_tables.specs.Layered.{nothing, pushed, begun, ended, marked};
ghost use Rattle.mm_tables.specs.Distinct.{pairs_among};

use crate::Layers;
use crate::groups::Groups;
use crate::pair::Pair;
use crate::parted::Parted;
use std::alloc::{AllocError, Global};
use std::marker::Model;

/// The groups in force now, those that were where each open block began, and those at each moment that was noted. Each
/// group is kept once, and its number stands for it; those in force now are kept once more, for questions about them.
#[derive(Drop)]
pub struct Partings {
    groups: Vec<Vec<u32>>,
    numbers: Layers,
    parted: Parted,
    heights: Vec<usize>,
}

impl Model for Partings {
    ghost use Rattle.std.specs.Prelude.{List, ℕ};
    ghost use Rattle.mm_tables.specs.Layered.{Layered};
    ghost use Rattle.mm_tables.specs.Texts.{texts};
    ghost use Rattle.mm_tables.specs.Parting.{layers_of_groups, AreInLayers};

    ghost Value = { Layered (List ℕ) };

    ghost view = { λ p. layers_of_groups (texts p.groups.items) p.numbers };

    ghost invariant = { λ p. AreInLayers (texts p.groups.items) p.numbers p.parted p.heights.items };
}

impl Partings {
    /// No group is in force, no block is open, and no moment was noted.
    pub fn new(alloc: Global) -> Partings
        ensures { result ≡ nothing }
    {
        Partings {
            groups: Vec::new(alloc),
            numbers: Layers::new(alloc),
            parted: Parted::new(alloc),
            heights: Vec::new(alloc),
        }
    }

    /// A group comes into force: its variables must differ from each other. This fails too where 4,294,967,295 groups
    /// have come before.
    pub fn part(&mut self, alloc: Global, group: &[u32]) -> Result<(), AllocError>
        ensures ok { OnOk result (self.new ≡ pushed self.old (group.now ∷ [])) }
        ensures err { OnErr result (self.new ≡ self.old) }
    {
        let number = self.groups.len();
        if number >= u32::MAX as usize {
            return Err(AllocError);
        }
        let kept = Vec::from_slice(alloc, group)?;
        self.groups.push(kept)?;
        let before = self.parted.len();
        self.parted.push(alloc, group)?;
        match self.numbers.push(number as u32) {
            Ok(()) => Ok(()),
            Err(_) => {
                self.parted.truncate(before);
                Err(AllocError)
            }
        }
    }

    /// A block begins.
    pub fn open(&mut self) -> Result<(), AllocError>
        ensures ok { OnOk result (self.new ≡ begun self.old) }
        ensures err { OnErr result (self.new ≡ self.old) }
    {
        self.heights.push(self.parted.len())?;
        match self.numbers.open() {
            Ok(()) => Ok(()),
            Err(_) => {
                let _ = self.heights.pop();
                Err(AllocError)
            }
        }
    }

    /// The innermost open block ends: the groups that were in force where it began are again. Where none is open, none
    /// is in force any more.
    pub fn close(&mut self)
        ensures { self.new ≡ ended self.old }
    {
        self.parted.truncate(self.heights.pop().unwrap_or(0));
        self.numbers.close();
    }

    /// The moment is noted.
    pub fn note(&mut self) -> Result<(), AllocError>
        ensures ok { OnOk result (self.new ≡ marked self.old) }
        ensures err { OnErr result (self.new ≡ self.old) }
    {
        self.numbers.note()
    }

    /// How many moments were noted.
    pub fn moments(&self) -> usize
        ensures { result ≡ length self.now.moments }
    {
        self.numbers.moments()
    }

    /// Of what is in force now: for each variable of a list in order, its pairs with the later ones that must differ from
    /// it, in order.
    pub fn pairs_among(&self, alloc: Global, variables: &[u32]) -> Result<Vec<Pair>, AllocError>
        ensures { IfOk result (λ v. v.items ≡ pairs_among self.now.now variables.now) }
    {
        let _ = &self.groups;
        self.parted.pairs_among(alloc, variables)
    }

    /// The groups that were in force at a moment, counted from 0.
    pub fn at(&self, moment: u32) -> Groups<'_>
        requires { moment < length self.now.moments }
        ensures { slice_get self.now.moments moment ≡ Some result }
    {
        Groups {
            groups: self.groups.as_slice(),
            trail: self.numbers.at(moment),
        }
    }
}
