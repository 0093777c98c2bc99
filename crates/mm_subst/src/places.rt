//! Places of keys.

ghost use Rattle.std.specs.Prelude.{◌≡◌, [], cond, Some, OnOk, OnErr};
ghost use Rattle.mm_subst.specs.Places.{kept_at};
ghost use Rattle.mm_subst.specs.Symbols.{is_same};
ghost use Rattle.mm_subst.specs.declared.symbol.WSym.{WSym};

use crate::symbol::WSym;
use std::alloc::{AllocError, Global};
use std::collections::BTreeMap;
use std::marker::Model;

/// Of keys the places of their pairs, counted from 0.
#[derive(Debug, Drop)]
pub(crate) struct Places {
    places: BTreeMap<WSym, usize>,
}

impl Model for Places {
    ghost use Rattle.std.specs.Prelude.{ℕ, List};
    ghost use Rattle.mm_subst.specs.declared.symbol.WSym.{WSym};

    ghost Value = { List (WSym × ℕ) };

    ghost view = { λ p. p.places.entries };
}

impl Places {
    /// No places. This takes no memory.
    pub(crate) fn new(alloc: Global) -> Places
        ensures { result ≡ [] }
    {
        Places {
            places: BTreeMap::new(alloc),
        }
    }

    /// The place of a key.
    pub(crate) fn get(&self, key: WSym) -> Option<usize>
        ensures { result ≡ kept_at self.now key }
    {
        self.places.get(&key).copied()
    }

    /// Keeps the place of a key.
    pub(crate) fn put(&mut self, key: WSym, place: usize) -> Result<(), AllocError>
        ensures ok { OnOk result ((x : WSym) → kept_at self.new x ≡ cond (is_same key x) (Some place) (kept_at self.old x)) }
        ensures err { OnErr result (self.new ≡ self.old) }
    {
        self.places.insert(key, place)?;
        Ok(())
    }
}
