//! Names of trees: two trees have one name exactly where they are equal.

ghost use Rattle.std.specs.Prelude.{◌≡◌, ℕ, ◌+◌, ◌<◌, ◌^◌, [], length, slice_get, IfOk, OnOk, Some, None};
ghost use Rattle.mm_proof.specs.TreeNames.{Named, Joins, Places, place_at, pair_at};

use std::alloc::{AllocError, Global};
use std::collections::HashMap;

/// A name below `first` is that of a leaf with this label. Any other is that of a tree with one child more than some named tree; `pairs`
/// has it by the name of that tree and that of the child, and `places` has the step where it is written whole.
#[derive(Drop)]
pub struct Table {
    pub pairs: HashMap<(u64, u64), u64>,
    pub places: Vec<Option<u64>>,
    pub first: u64,
}

impl Table {
    /// A table with no name but those of the leaves.
    pub(crate) fn new(alloc: Global, first: u64) -> Table
        ensures first { result.first ≡ first }
        ensures places { result.places.items ≡ [] }
        ensures pairs { (i j : ℕ) → pair_at result i j ≡ None }
    {
        Table {
            pairs: HashMap::new(alloc),
            places: Vec::new(alloc),
            first,
        }
    }

    /// The name of the tree with this name and one child more.
    pub(crate) fn grown(&mut self, name: u64, child: u64) -> Result<u64, AllocError>
        ensures { IfOk result (Named self.old self.new name child) }
    {
        if let Some(known) = self.pairs.get(&(name, child)) {
            return Ok(*known);
        }
        let Some(next) = self.first.checked_add(self.places.len() as u64) else {
            return Err(AllocError);
        };
        self.places.push(None)?;
        self.pairs.insert((name, child), next)?;
        Ok(next)
    }

    /// The step where the tree with this name is written whole.
    pub(crate) fn place(&self, name: u64) -> Option<u64>
        ensures { result ≡ place_at self.now name }
    {
        if name < self.first {
            return None;
        }
        match self.places.get((name - self.first) as usize) {
            Some(place) => *place,
            None => None,
        }
    }

    /// Keeps the step where the tree with this name is written whole.
    pub(crate) fn set_place(&mut self, name: u64, place: u64)
        ensures { Places self.old self.new name place }
    {
        if name >= self.first {
            if let Some(kept) = self.places.get_mut((name - self.first) as usize) {
                *kept = Some(place);
            }
        }
    }
}

/// A tree on the stack: its name, the step with which its steps begin, and whether none of them is unknown.
#[derive(Clone, Copy)]
pub struct Part {
    pub name: u64,
    pub start: u64,
    pub known: bool,
}

/// The name of a label with these children.
pub(crate) fn joined(table: &mut Table, children: &[Part], label: u64) -> Result<u64, AllocError>
    ensures { IfOk result (Joins table.old table.new children.now label) }
{
    let mut name = label;
    for part in children {
        name = table.grown(name, part.name)?;
    }
    Ok(name)
}
