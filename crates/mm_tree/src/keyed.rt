//! Where work variables are bound.

ghost use Rattle.std.specs.Prelude.{◌≡◌, ◌++◌, ◌∷◌, ℕ, [], OnOk, OnErr, IfOk, All, true, false, nat_eq, is_none, if◌then◌else◌};
ghost use Rattle.mm_subst.specs.Substitutions.{value_at};
ghost use Rattle.mm_subst.specs.Symbols.{is_work};
ghost use Rattle.mm_subst.specs.declared.symbol.WSym.{WSym};
ghost use Rattle.mm_plain.specs.Binding.{HasWorkKeys};
ghost use Rattle.mm_tree.specs.Keyed.{places_at, IsPlaced, IsKeyed};

use mm_subst::{Subst, WSym};
use std::alloc::{AllocError, Global};
use std::collections::HashMap;

/// Of work variables the places of the bindings that have them as keys, and maybe other places.
#[derive(Drop)]
pub struct Keyed {
    places: HashMap<u32, Vec<usize>>,
}

impl Keyed {
    /// No places. This takes no memory.
    fn new(alloc: Global) -> Keyed
        ensures { (n : ℕ) → places_at result n ≡ [] }
    {
        Keyed {
            places: HashMap::new(alloc),
        }
    }

    /// The places of the keys of bindings.
    pub fn of(alloc: Global, bindings: &[Subst]) -> Result<Keyed, AllocError>
        requires { All HasWorkKeys bindings.now }
        ensures { IfOk result (λ k. IsKeyed k bindings.now) }
    {
        let mut keyed = Keyed::new(alloc);
        let mut place = 0;
        for theta in bindings {
            keyed.add_keys(theta, place)?;
            place += 1;
        }
        Ok(keyed)
    }

    /// The places of a work variable.
    pub fn at(&self, number: u32) -> &[usize]
        ensures { result.now ≡ places_at self.now number }
    {
        match self.places.get(&number) {
            Some(places) => places.as_slice(),
            None => &[],
        }
    }

    /// Adds a place of a work variable.
    fn add(&mut self, number: u32, place: usize) -> Result<(), AllocError>
        ensures ok { OnOk result ((n : ℕ) → places_at self.new n ≡ (if nat_eq number n then places_at self.old n ++ place ∷ [] else places_at self.old n)) }
        ensures err { OnErr result ((n : ℕ) → places_at self.new n ≡ places_at self.old n) }
    {
        self.places.entry(number)?.or_default().push(place)?;
        Ok(())
    }

    /// Adds the place of a binding for one of its keys.
    fn add_key(&mut self, key: WSym, place: usize) -> Result<(), AllocError>
        requires { is_work key ≡ true }
        ensures kept { (i : ℕ) (x : WSym) → IsPlaced self.old i x → IsPlaced self.new i x }
        ensures ok { OnOk result (IsPlaced self.new place key) }
    {
        match key {
            WSym::Work(number) => self.add(number, place),
            _ => Ok(()),
        }
    }

    /// Adds the place of a binding for each of its keys.
    pub fn add_keys(&mut self, theta: &Subst, place: usize) -> Result<(), AllocError>
        requires { HasWorkKeys theta.now }
        ensures kept { (i : ℕ) (x : WSym) → IsPlaced self.old i x → IsPlaced self.new i x }
        ensures ok { OnOk result ((x : WSym) → is_none (value_at theta.now x) ≡ false → IsPlaced self.new place x) }
    {
        for (key, _) in theta.pairs() {
            self.add_key(*key, place)?;
        }
        Ok(())
    }
}
