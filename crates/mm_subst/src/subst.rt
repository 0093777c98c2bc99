//! Substitutions.

ghost use Rattle.std.specs.Prelude.{◌≡◌, ◌≤◌, ◌-◌, ◌∷◌, [], ◌++◌, length, map, take, cond, nat_lt, if◌then◌else◌, slice_get, OnOk, OnErr, IfOk, MatchOption, None, Some};
ghost use Rattle.mm_subst.specs.Substitutions.{value_at, HasDistinctKeys};
ghost use Rattle.mm_subst.specs.Places.{few, kept_at};
ghost use Rattle.mm_subst.specs.Symbols.{is_same};
ghost use Rattle.mm_subst.specs.declared.symbol.WSym.{WSym};

use crate::places::Places;
use crate::string::WStr;
use crate::symbol::WSym;
use std::alloc::{AllocError, Global};
use std::marker::Model;

/// So many pairs are gone through one by one; of those after them the places are kept by their keys.
const FEW: usize = 16;

/// A substitution, seen as the list of its pairs of a key and a value. No key comes twice.
#[derive(Debug, Drop)]
pub struct Subst {
    pairs: Vec<(WSym, WStr)>,
    places: Places,
}

impl Model for Subst {
    ghost use Rattle.std.specs.Prelude.{List};
    ghost use Rattle.mm_subst.specs.declared.symbol.WSym.{WSym};

    ghost Value = { List (WSym × List WSym) };

    ghost use Rattle.mm_subst.specs.Places.{ArePlaces};
    ghost use Rattle.mm_subst.specs.Substitutions.{HasDistinctKeys};

    ghost view = { λ s. s.pairs.items };

    ghost invariant = { λ s. HasDistinctKeys s.pairs.items × ArePlaces s.places s.pairs.items };
}

impl Subst {
    /// The substitution without a pair. This takes no memory.
    pub fn new(alloc: Global) -> Subst
        ensures { result ≡ [] }
    {
        Subst {
            pairs: Vec::new(alloc),
            places: Places::new(alloc),
        }
    }

    /// Appends a pair. Where that is refused the value is dropped, and the pairs are as before.
    pub fn put(&mut self, _alloc: Global, key: WSym, value: WStr) -> Result<(), AllocError>
        requires { value_at self.old key ≡ None }
        ensures ok { OnOk result (self.new ≡ self.old ++ (key, value) ∷ []) }
        ensures err { OnErr result (self.new ≡ self.old) }
    {
        self.pairs.reserve(1)?;
        keep_place(&mut self.places, key, self.pairs.len())?;
        self.pairs.push((key, value))?;
        Ok(())
    }

    /// The value of a key; `None` exactly where no pair has the key.
    pub fn get(&self, key: WSym) -> Option<&WStr>
        ensures { MatchOption result (value_at self.now key ≡ None) (λ v. value_at self.now key ≡ Some v.now) }
    {
        let pairs = self.pairs.as_slice();
        match value_among(first_few(pairs), key) {
            Some(value) => Some(value),
            None => match self.places.get(key) {
                Some(place) => Some(&pairs[place].1),
                None => None,
            },
        }
    }

    /// How many pairs there are.
    pub fn count(&self) -> u64
        ensures { result ≡ length self.now }
    {
        self.pairs.len() as u64
    }

    /// The key of a pair, counted from 1.
    pub fn key(&self, k: u64) -> WSym
        requires { (1 ≤ k) × (k ≤ length self.now) }
        ensures { slice_get (map (λ p. p.0) self.now) (k - 1) ≡ Some result }
    {
        self.pairs[k as usize - 1].0
    }

    /// The value of a pair, counted from 1.
    pub fn value(&self, k: u64) -> &WStr
        requires { (1 ≤ k) × (k ≤ length self.now) }
        ensures { slice_get (map (λ p. p.1) self.now) (k - 1) ≡ Some result.now }
    {
        &self.pairs[k as usize - 1].1
    }

    /// The pairs, in the order in which they were put.
    pub fn pairs(&self) -> &[(WSym, WStr)]
        ensures pairs { result.now ≡ self.now }
        ensures distinct { HasDistinctKeys self.now }
    {
        self.pairs.as_slice()
    }

    /// The same substitution once more.
    pub fn copy(&self, alloc: Global) -> Result<Subst, AllocError>
        ensures { IfOk result (λ s. s ≡ self.now) }
    {
        let mut out = Subst::new(alloc);
        for (k, v) in self.pairs() {
            out.put(alloc, *k, v.copy(alloc)?)?;
        }
        Ok(out)
    }
}

/// The first few pairs.
fn first_few(pairs: &[(WSym, WStr)]) -> &[(WSym, WStr)]
    ensures { result.now ≡ take few pairs.now }
{
    if pairs.len() > FEW {
        &pairs[..FEW]
    } else {
        pairs
    }
}

/// The value of a key, found pair by pair.
fn value_among(pairs: &[(WSym, WStr)], key: WSym) -> Option<&WStr>
    ensures { MatchOption result (value_at pairs.now key ≡ None) (λ v. value_at pairs.now key ≡ Some v.now) }
{
    for (k, v) in pairs {
        if k.is_same(key) {
            return Some(v);
        }
    }
    None
}

/// Keeps the place of a key, unless it is one of the first few.
fn keep_place(places: &mut Places, key: WSym, place: usize) -> Result<(), AllocError>
    ensures ok { OnOk result ((x : WSym) → kept_at places.new x ≡ (if nat_lt place few then kept_at places.old x else cond (is_same key x) (Some place) (kept_at places.old x))) }
    ensures err { OnErr result (places.new ≡ places.old) }
{
    if place < FEW {
        Ok(())
    } else {
        places.put(key, place)
    }
}
