//! Variables in the blocks in which they are declared.

ghost use Rattle.std.specs.Prelude.{◌≡◌, ◌<◌, ◌≤◌, ◌-◌, ◌==◌, ℕ, false, [], ◌∷◌, ◌++◌, length, drop, slice_get, slice_index_or, Some, OnOk, OnErr};
ghost use Rattle.std.specs.List.{list_any};
ghost use Rattle.mm_tables.specs.Layered.{nothing, pushed, begun, ended, marked};
ghost use Rattle.mm_tables.specs.Numbering.{numbers_of, copies};

use crate::holders::Holders;
use crate::layers::Layers;
use crate::trail::Trail;
use std::alloc::{AllocError, Global};
use std::marker::Model;

/// Variables in force, by number: now, where each open block began, and at each moment that was noted. Of each variable
/// the moments are kept before which its declarations began and ended, so that whether it was in force at a moment is
/// found among these, and not by a walk over all that were.
#[derive(Drop)]
pub struct Declarations {
    layers: Layers,
    changes: Holders,
    standing: Vec<u32>,
    heights: Vec<usize>,
}

impl Model for Declarations {
    ghost use Rattle.std.specs.Prelude.{ℕ};
    ghost use Rattle.mm_tables.specs.Layered.{Layered};
    ghost use Rattle.mm_tables.specs.Changes.{AreChanges};

    ghost Value = { Layered ℕ };

    ghost view = { λ d. d.layers };

    ghost invariant = { λ d. AreChanges d.layers d.changes d.standing.items d.heights.items };
}

impl Declarations {
    /// No variable is in force, no block is open, and no moment was noted.
    pub fn new(alloc: Global) -> Declarations
        ensures { result ≡ nothing }
    {
        Declarations {
            layers: Layers::new(alloc),
            changes: Holders::new(alloc),
            standing: Vec::new(alloc),
            heights: Vec::new(alloc),
        }
    }

    /// Whether a variable is in force now.
    fn is_now(&self, variable: u32) -> bool
        ensures { result ≡ list_any (λ n. variable == n) self.now.now }
    {
        let _ = &self.layers;
        self.changes.numbers(variable).len() % 2 == 1
    }

    /// A variable that is not in force comes into force.
    fn begin(&mut self, alloc: Global, variable: u32) -> Result<(), AllocError>
        requires { list_any (λ n. variable == n) self.old.now ≡ false }
        ensures ok { OnOk result (self.new ≡ pushed self.old (variable ∷ [])) }
        ensures err { OnErr result (self.new ≡ self.old) }
    {
        let moment = self.layers.moments() as u32;
        self.standing.reserve(1)?;
        self.changes.add_all(alloc, &[variable], moment)?;
        match self.layers.push(variable) {
            Ok(()) => {
                self.standing.push(variable)?;
                Ok(())
            }
            Err(_) => {
                self.changes.remove_all(&[variable]);
                Err(AllocError)
            }
        }
    }

    /// A variable comes into force. This fails too where 4,294,967,295 have come before.
    pub fn push(&mut self, alloc: Global, variable: u32) -> Result<(), AllocError>
        ensures ok { OnOk result (self.new ≡ pushed self.old (variable ∷ [])) }
        ensures err { OnErr result (self.new ≡ self.old) }
    {
        if self.is_now(variable) {
            self.layers.push(variable)
        } else {
            self.begin(alloc, variable)
        }
    }

    /// A block begins.
    pub fn open(&mut self) -> Result<(), AllocError>
        ensures ok { OnOk result (self.new ≡ begun self.old) }
        ensures err { OnErr result (self.new ≡ self.old) }
    {
        self.heights.push(self.standing.len())?;
        match self.layers.open() {
            Ok(()) => Ok(()),
            Err(_) => {
                let _ = self.heights.pop();
                Err(AllocError)
            }
        }
    }

    /// The innermost open block ends: what was in force where it began is again. Where none is open, nothing is in force
    /// any more.
    pub fn close(&mut self, alloc: Global) -> Result<(), AllocError>
        ensures ok { OnOk result (self.new ≡ ended self.old) }
        ensures err { OnErr result (self.new ≡ self.old) }
    {
        let moment = self.layers.moments() as u32;
        let height = last_of(self.heights.as_slice());
        end_above(
            &mut self.changes,
            alloc,
            self.standing.as_slice(),
            height,
            moment,
        )?;
        self.standing.truncate(height);
        let _ = self.heights.pop();
        self.layers.close();
        Ok(())
    }

    /// The moment is noted. This fails too where 4,294,967,295 were noted before.
    pub fn note(&mut self) -> Result<(), AllocError>
        ensures ok { OnOk result (self.new ≡ marked self.old) }
        ensures err { OnErr result (self.new ≡ self.old) }
    {
        if self.layers.moments() >= u32::MAX as usize {
            return Err(AllocError);
        }
        self.layers.note()
    }

    /// What was in force at a moment, counted from 0.
    pub fn at(&self, moment: u32) -> Trail<'_>
        requires { moment < length self.now.moments }
        ensures { slice_get self.now.moments moment ≡ Some result }
    {
        self.layers.at(moment)
    }

    /// Whether a variable was in force at a moment, counted from 0. It takes the time of a search among the changes of that
    /// variable.
    pub fn was_in_force(&self, moment: u32, variable: u32) -> bool
        requires { moment < length self.now.moments }
        ensures { result ≡ list_any (λ n. variable == n) (slice_index_or self.now.moments moment []) }
    {
        let _ = &self.layers;
        let changes = self.changes.numbers(variable);
        changes.partition_point(|change| *change <= moment) % 2 == 1
    }
}

/// The last number; 0 where there is none.
fn last_of(numbers: &[usize]) -> usize
    ensures { result ≡ slice_index_or numbers.now (length numbers.now - 1) 0 }
{
    numbers.last().copied().unwrap_or(0)
}

/// A change before a moment for each of the variables from a place on.
#[tactic(auto, using(crate::proofs::Changing::take_rest))]
fn end_above(
    changes: &mut Holders,
    alloc: Global,
    standing: &[u32],
    height: usize,
    moment: u32,
) -> Result<(), AllocError>
    requires { height ≤ length standing.now }
    ensures ok { OnOk result ((n : ℕ) → numbers_of changes.new n ≡ numbers_of changes.old n ++ copies moment (drop height standing.now) n) }
    ensures err { OnErr result ((n : ℕ) → numbers_of changes.new n ≡ numbers_of changes.old n) }
{
    changes.add_all(alloc, &standing[height..], moment)
}
