//! What was in force at a moment, as a chain of nodes.

ghost use Rattle.std.specs.Prelude.{◌≡◌, ◌==◌, [], ◌∷◌, ◌++◌, MatchOption, IfOk};
ghost use Rattle.std.specs.List.{list_any};

use std::alloc::{AllocError, Global};
use std::marker::Model;

/// A value that came into force, and where the chain of those in force before it begins: 1 more than the place of the
/// newest of them, 0 where there is none. It is written once and never changed.
#[derive(Clone, Copy)]
pub(crate) struct Node {
    pub(crate) value: u32,
    pub(crate) below: u32,
}

/// What was in force at a moment, the oldest first. Each call but `split_last` takes the time of a walk over it.
#[derive(Drop)]
pub struct Trail<'a> {
    pub(crate) nodes: &'a [Node],
    pub(crate) top: u32,
}

impl<'a> Model for Trail<'a> {
    ghost use Rattle.std.specs.Prelude.{List, ℕ, ◌≤◌, length};
    ghost use Rattle.mm_tables.specs.Trails.{trail, LinksFall};

    ghost Value = { List ℕ };

    ghost view = { λ t. trail t.nodes.now t.top };

    ghost invariant = { λ t. LinksFall t.nodes.now × (t.top ≤ length t.nodes.now) };
}

impl<'a> Trail<'a> {
    /// What was in force before the newest, and the newest; none where nothing was.
    pub fn split_last(&self) -> Option<(Trail<'a>, u32)>
        ensures { MatchOption result (self.now ≡ []) (λ p. self.now ≡ p.0 ++ p.1 ∷ []) }
    {
        if self.top == 0 {
            return None;
        }
        let node = self.nodes[self.top as usize - 1];
        let older = Trail {
            nodes: self.nodes,
            top: node.below,
        };
        Some((older, node.value))
    }

    /// Whether a value was in force.
    pub fn contains(&self, value: u32) -> bool
        ensures { result ≡ list_any (λ n. value == n) self.now }
    {
        let nodes = self.nodes;
        let mut top = self.top;
        while top != 0 {
            let node = nodes[top as usize - 1];
            if value == node.value {
                return true;
            }
            top = node.below;
        }
        false
    }

    /// The values themselves.
    pub fn to_vec(&self, alloc: Global) -> Result<Vec<u32>, AllocError>
        ensures { IfOk result (λ v. v.items ≡ self.now) }
    {
        let nodes = self.nodes;
        let mut values = Vec::new(alloc);
        let mut top = self.top;
        while top != 0 {
            let node = nodes[top as usize - 1];
            values.push(node.value)?;
            top = node.below;
        }
        values.reverse();
        Ok(values)
    }
}
