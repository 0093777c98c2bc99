//! The frame of a statement.

ghost use Rattle.std.specs.List.{list_any};
ghost use Rattle.std.specs.Prelude.{◌≡◌, ◌==◌, [], ◌∷◌, ◌++◌, IfOk, MatchOption};

use crate::database::{Database, StmtId};
use mm_tables::{Pair, Trail};
use std::alloc::{AllocError, Global};
use std::marker::Model;

/// Ids of statements, in order.
#[derive(Drop)]
pub struct Ids<'a> {
    pub(crate) items: &'a [u32],
}

impl<'a> Model for Ids<'a> {
    ghost use Rattle.std.specs.Prelude.{List, ℕ};

    ghost Value = { List ℕ };

    ghost view = { λ i. i.items.now };
}

impl<'a> Ids<'a> {
    /// The ids themselves.
    pub fn as_slice(&self) -> &'a [u32]
        ensures { result.now ≡ self.now }
    {
        self.items
    }
}

/// Symbols by their numbers, in order.
#[derive(Drop)]
pub struct Symbols<'a> {
    pub(crate) items: &'a [u32],
}

impl<'a> Model for Symbols<'a> {
    ghost use Rattle.std.specs.Prelude.{List, ℕ};

    ghost Value = { List ℕ };

    ghost view = { λ s. s.items.now };
}

impl<'a> Symbols<'a> {
    /// The numbers themselves.
    pub fn as_slice(&self) -> &'a [u32]
        ensures { result.now ≡ self.now }
    {
        self.items
    }
}

/// Pairs of variables that must differ, by their symbols' numbers: in each, and from pair to pair, in the order of their
/// variables' `$f`.
#[derive(Drop)]
pub struct Pairs<'a> {
    pub(crate) items: &'a [Pair],
}

impl<'a> Model for Pairs<'a> {
    ghost use Rattle.std.specs.Prelude.{List, ℕ};

    ghost Value = { List (ℕ × ℕ) };

    ghost view = { λ p. p.items.now };
}

impl<'a> Pairs<'a> {
    /// The pairs themselves.
    pub fn as_slice(&self) -> &'a [Pair]
        ensures { result.now ≡ self.now }
    {
        self.items
    }
}

/// Ids of hypotheses that are active, in order. Each call but `split_last` takes the time of a walk over them.
#[derive(Drop)]
pub struct Active<'a> {
    pub(crate) trail: Option<Trail<'a>>,
}

impl<'a> Model for Active<'a> {
    ghost use Rattle.std.specs.Prelude.{List, ℕ, [], unwrap_or};

    ghost Value = { List ℕ };

    ghost view = { λ a. unwrap_or a.trail [] };
}

impl<'a> Active<'a> {
    /// The ids before the last one, and the last one; none where there is none.
    pub fn split_last(&self) -> Option<(Active<'a>, u32)>
        ensures { MatchOption result (self.now ≡ []) (λ p. self.now ≡ p.0 ++ p.1 ∷ []) }
    {
        match &self.trail {
            Some(trail) => match trail.split_last() {
                Some((older, id)) => Some((Active { trail: Some(older) }, id)),
                None => None,
            },
            None => None,
        }
    }

    /// Whether an id is among them.
    pub fn contains(&self, id: u32) -> bool
        ensures { result ≡ list_any (λ n. id == n) self.now }
    {
        match &self.trail {
            Some(trail) => trail.contains(id),
            None => false,
        }
    }

    /// The ids themselves.
    pub fn to_vec(&self, alloc: Global) -> Result<Vec<u32>, AllocError>
        ensures { IfOk result (λ v. v.items ≡ self.now) }
    {
        match &self.trail {
            Some(trail) => trail.to_vec(alloc),
            None => Ok(Vec::new(alloc)),
        }
    }
}

/// The active pairs of variables that must differ, as `Pairs` lists them; a variable without an active `$f` comes after
/// those that have one, by number. They are found when they are asked for.
#[derive(Drop)]
pub struct ActivePairs<'a> {
    pub(crate) database: &'a Database,
    pub(crate) id: StmtId,
}

impl<'a> Model for ActivePairs<'a> {
    ghost use Rattle.std.specs.Prelude.{List, ℕ, ◌<◌, length};
    ghost use Rattle.mm_scope.specs.Contents.{labels_of, active_pairs_of};

    ghost Value = { List (ℕ × ℕ) };

    ghost view = { λ p. active_pairs_of p.database.now p.id.0 };

    ghost invariant = { λ p. p.id.0 < length (labels_of p.database.now) };
}

impl<'a> ActivePairs<'a> {
    /// The pairs themselves. It takes the time of a walk over all symbols.
    pub fn to_vec(&self, alloc: Global) -> Result<Vec<Pair>, AllocError>
        ensures { IfOk result (λ v. v.items ≡ self.now) }
    {
        self.database.active_pairs(alloc, self.id)
    }
}

/// The frame of a statement: the ids of its mandatory hypotheses, its symbols, its mandatory pairs, the ids of its active
/// hypotheses and its active pairs. Of a hypothesis all but the symbols are empty (Metamath book, sections 4.1.3 and 4.2.2).
#[derive(Drop)]
pub struct Frame<'a> {
    pub mandatory: Ids<'a>,
    pub conclusion: Symbols<'a>,
    pub pairs: Pairs<'a>,
    pub active: Active<'a>,
    pub active_pairs: ActivePairs<'a>,
}
