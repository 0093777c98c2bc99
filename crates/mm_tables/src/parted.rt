//! What the active `$d` statements part.

ghost use Rattle.std.specs.Prelude.{◌≡◌, ◌≢◌, ◌↔◌, true, List, ℕ, [], ◌∷◌, ◌++◌, length, take, Contains, AllPairs, OnOk, OnErr, IfOk};
ghost use Rattle.std.specs.List.{list_any};
ghost use Rattle.mm_tables.specs.Distinct.{are_distinct, holds_both, is_held, pairs_with, pairs_among, StandsBefore};
ghost use Rattle.mm_tables.specs.Numbering.{share, IsRising};

use crate::holders::Holders;
use crate::pair::Pair;
use std::alloc::{AllocError, Global};
use std::marker::Model;

/// A stack of groups of variables: those of a group must differ from each other.
#[derive(Drop)]
pub struct Parted {
    groups: Vec<Vec<u32>>,
    holders: Holders,
}

impl Model for Parted {
    ghost use Rattle.std.specs.Prelude.{List, ℕ, length, ◌<◌, ◌^◌};
    ghost use Rattle.mm_tables.specs.Numbering.{AreNumbers};
    ghost use Rattle.mm_tables.specs.Texts.{texts};

    ghost Value = { List (List ℕ) };

    ghost view = { λ p. texts p.groups.items };

    ghost invariant = { λ p. AreNumbers p.holders (texts p.groups.items) × (length p.groups.items < 2 ^ 32) };
}

impl Parted {
    /// No groups.
    pub fn new(alloc: Global) -> Parted
        ensures { result ≡ [] }
    {
        Parted {
            groups: Vec::new(alloc),
            holders: Holders::new(alloc),
        }
    }

    /// How many groups there are.
    pub fn len(&self) -> usize
        ensures { result ≡ length self.now }
    {
        self.groups.len()
    }

    /// Puts a group on top.
    pub fn push(&mut self, alloc: Global, group: &[u32]) -> Result<(), AllocError>
        ensures ok { OnOk result (self.new ≡ self.old ++ group.now ∷ []) }
        ensures err { OnErr result (self.new ≡ self.old) }
    {
        if self.groups.len() >= u32::MAX as usize {
            return Err(AllocError);
        }
        let kept = Vec::from_slice(alloc, group)?;
        self.holders
            .add_all(alloc, group, self.groups.len() as u32)?;
        match self.groups.push(kept) {
            Ok(()) => Ok(()),
            Err(_) => {
                self.holders.remove_all(group);
                Err(AllocError)
            }
        }
    }

    /// Takes groups off the top until at most so many are left.
    pub fn truncate(&mut self, groups: usize)
        ensures { self.new ≡ take groups self.old }
    {
        while self.groups.len() > groups {
            if let Some(group) = self.groups.pop() {
                self.holders.remove_all(group.as_slice());
            }
        }
    }

    /// Whether two variables must differ: they are not the same, and some group holds both.
    #[tactic(auto, unfolding(crate::specs::Distinct::are_distinct))]
    pub fn are_distinct(&self, u: u32, v: u32) -> bool
        ensures { result ≡ are_distinct self.now u v }
    {
        u != v && self.is_shared(u, v)
    }

    /// Whether some group holds both.
    fn is_shared(&self, u: u32, v: u32) -> bool
        ensures { result ≡ list_any (holds_both u v) self.now }
    {
        let _ = &self.groups;
        have_common(self.holders.numbers(u), self.holders.numbers(v))
    }

    /// Whether some group holds a variable.
    fn holds(&self, variable: u32) -> bool
        ensures { result ≡ list_any (λ g. is_held g variable) self.now }
    {
        !self.holders.numbers(variable).is_empty()
    }

    /// Adds the pairs of a variable with those of a list that must differ from it.
    fn add_pairs(&self, pairs: &mut Vec<Pair>, first: u32, later: &[u32]) -> Result<(), AllocError>
        ensures { OnOk result (pairs.new.items ≡ pairs.old.items ++ pairs_with self.now first later.now) }
    {
        if !self.holds(first) {
            return Ok(());
        }
        for second in later {
            if self.are_distinct(first, *second) {
                pairs.push(Pair {
                    first,
                    second: *second,
                })?;
            }
        }
        Ok(())
    }

    /// For each variable of a list in order, its pairs with the later ones that must differ from it, in order.
    pub fn pairs_among(&self, alloc: Global, variables: &[u32]) -> Result<Vec<Pair>, AllocError>
        ensures { IfOk result (λ v. v.items ≡ pairs_among self.now variables.now) }
    {
        let mut pairs = Vec::new(alloc);
        if self.groups.is_empty() {
            return Ok(pairs);
        }
        for place in 0..variables.len() {
            self.add_pairs(&mut pairs, variables[place], &variables[place + 1..])?;
        }
        Ok(pairs)
    }
}

/// Whether two rising lists have a number in common.
fn have_common(left: &[u32], right: &[u32]) -> bool
    requires left { IsRising left.now }
    requires right { IsRising right.now }
    ensures { result ≡ share left.now right.now }
{
    let mut place = 0;
    let mut other = 0;
    while place < left.len() && other < right.len() {
        if left[place] == right[other] {
            return true;
        }
        if left[place] < right[other] {
            place += 1;
        } else {
            other += 1;
        }
    }
    false
}

/// A pair is listed exactly where its first variable stands before its second, and the two must differ.
pub fn pairs_stand_in_order(parted: &Parted, variables: &[u32], u: u32, v: u32)
    ensures { Contains (pairs_among parted.now variables.now) (u, v) ↔ (StandsBefore variables.now u v × (are_distinct parted.now u v ≡ true)) }
{
    let _ = parted;
    let _ = variables;
    let _ = (u, v);
}

/// Where no variable is listed twice, no pair is.
pub fn pairs_differ(parted: &Parted, variables: &[u32])
    ensures { AllPairs (λ u v. u ≢ v) variables.now → AllPairs (λ p q. p ≢ q) (pairs_among parted.now variables.now) }
{
    let _ = parted;
    let _ = variables;
}
