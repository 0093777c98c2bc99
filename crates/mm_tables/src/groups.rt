//! Groups of variables at a moment.

ghost use Rattle.std.specs.Prelude.{◌≡◌, ◌<◌, ℕ, List, length, All, IfOk};
ghost use Rattle.std.specs.List.{list_any};
ghost use Rattle.mm_tables.specs.Texts.{texts};
ghost use Rattle.mm_tables.specs.Distinct.{are_distinct, holds_both, is_held};
ghost use Rattle.mm_tables.specs.Parting.{groups_of, AreBelow};

use crate::Trail;
use crate::parted::Parted;
use std::alloc::{AllocError, Global};
use std::marker::Model;

/// The groups that were in force at a moment, the oldest first.
#[derive(Drop)]
pub struct Groups<'a> {
    pub(crate) groups: &'a [Vec<u32>],
    pub(crate) trail: Trail<'a>,
}

impl<'a> Model for Groups<'a> {
    ghost use Rattle.std.specs.Prelude.{List, ℕ, length};
    ghost use Rattle.mm_tables.specs.Texts.{texts};
    ghost use Rattle.mm_tables.specs.Parting.{groups_of, AreBelow};

    ghost Value = { List (List ℕ) };

    ghost view = { λ g. groups_of (texts g.groups.now) g.trail };

    ghost invariant = { λ g. AreBelow (length g.groups.now) g.trail };
}

impl<'a> Groups<'a> {
    /// Whether two variables had to differ: they are not the same, and some group holds both.
    #[tactic(auto, unfolding(crate::specs::Distinct::are_distinct))]
    pub fn are_distinct(&self, u: u32, v: u32) -> bool
        ensures { result ≡ are_distinct self.now u v }
    {
        u != v && self.is_shared(u, v)
    }

    /// Whether some group holds both.
    fn is_shared(&self, u: u32, v: u32) -> bool
        ensures { result ≡ list_any (holds_both u v) self.now }
    {
        let groups = self.groups;
        let mut rest = self.trail.split_last();
        while let Some((older, number)) = rest {
            if holds_both(groups[number as usize].as_slice(), u, v) {
                return true;
            }
            rest = older.split_last();
        }
        false
    }

    /// The same groups, for many questions.
    pub fn to_parted(&self, alloc: Global) -> Result<Parted, AllocError>
        ensures { IfOk result (λ p. p ≡ self.now) }
    {
        let groups = self.groups;
        let numbers = self.trail.to_vec(alloc)?;
        let mut parted = Parted::new(alloc);
        for number in &numbers {
            parted.push(alloc, groups[*number as usize].as_slice())?;
        }
        Ok(parted)
    }
}

/// Whether a group holds both.
fn holds_both(group: &[u32], u: u32, v: u32) -> bool
    ensures { result ≡ holds_both u v group.now }
{
    is_held(group, u) && is_held(group, v)
}

/// Whether a group holds a variable.
fn is_held(group: &[u32], variable: u32) -> bool
    ensures { result ≡ is_held group.now variable }
{
    group.iter().any(|m| variable == *m)
}
