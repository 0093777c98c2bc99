//! Steps that are known to have no only unifier.

ghost use Rattle.std.specs.Prelude.{◌≡◌, ◌≤◌, ℕ, false, true, if◌then◌else◌, IfOk, OnOk, nat_eq};
ghost use Rattle.mm_plain.specs.Numbers.{HasOwnLabels};
ghost use Rattle.mm_plain.specs.Shape.{size_of, step_at};
ghost use Rattle.mm_edit.specs.Quiet.{has_key, has_key_at, has_key_in, is_quiet};

use mm_scope::Database;
use mm_subst::{Subst, WStr};
use mm_tree::Tree;
use std::alloc::{AllocError, Global};
use std::collections::HashSet;

/// The numbers of steps of which it is known that they have no only unifier.
#[derive(Drop)]
pub struct Quiet {
    steps: HashSet<u32>,
}

/// Whether a string has a key of a substitution.
fn has_key(theta: &Subst, s: &WStr) -> bool
    ensures { result ≡ has_key theta.now s.now }
{
    s.symbols()
        .iter()
        .any(|symbol| theta.get(*symbol).is_some())
}

/// The same of a string that may be missing.
fn has_key_in(theta: &Subst, s: &Option<WStr>) -> bool
    ensures { result ≡ has_key_in theta.now s.now }
{
    match s {
        Some(s) => has_key(theta, s),
        None => false,
    }
}

/// Whether the target or the source of a step has a key of a substitution.
fn has_key_at(
    alloc: Global,
    tree: &Tree,
    db: &Database,
    theta: &Subst,
    step: u32,
) -> Result<bool, AllocError>
    requires exists { (1 ≤ step) × (step ≤ size_of tree.now.proof.plain) }
    requires own { HasOwnLabels db.now tree.now.proof.plain }
    ensures { IfOk result (λ b. b ≡ has_key_at db.now theta.now (step_at tree.now.proof.plain step)) }
{
    let target = tree.target(alloc, step)?;
    let source = tree.source(alloc, db, step)?;
    Ok(has_key(theta, &target) || has_key_in(theta, &source))
}

impl Quiet {
    /// Nothing is known yet. This takes no memory.
    pub fn new(alloc: Global) -> Quiet
        ensures { (k : ℕ) → is_quiet result k ≡ false }
    {
        Quiet {
            steps: HashSet::new(alloc),
        }
    }

    /// Whether this is known of a step.
    pub fn has(&self, step: u32) -> bool
        ensures { result ≡ is_quiet self.now step }
    {
        self.steps.contains(&step)
    }

    /// Adds a step.
    pub fn add(&mut self, step: u32) -> Result<(), AllocError>
        ensures ok { OnOk result ((k : ℕ) → is_quiet self.new k ≡ (if nat_eq step k then true else is_quiet self.old k)) }
    {
        self.steps.insert(step)?;
        Ok(())
    }

    /// Takes a step out.
    fn remove(&mut self, step: u32)
        ensures { (k : ℕ) → is_quiet self.new k ≡ (if nat_eq step k then false else is_quiet self.old k) }
    {
        self.steps.remove(&step);
    }

    /// Forgets a step where its target or its source has a key of a substitution.
    fn forget_at(
        &mut self,
        alloc: Global,
        tree: &Tree,
        db: &Database,
        theta: &Subst,
        step: u32,
    ) -> Result<(), AllocError>
        requires exists { (1 ≤ step) × (step ≤ size_of tree.now.proof.plain) }
        requires own { HasOwnLabels db.now tree.now.proof.plain }
        ensures fewer { OnOk result ((k : ℕ) → is_quiet self.new k ≡ true → is_quiet self.old k ≡ true) }
        ensures same { OnOk result (is_quiet self.new step ≡ true → has_key_at db.now theta.now (step_at tree.now.proof.plain step) ≡ false) }
    {
        if !self.has(step) {
            return Ok(());
        }
        if has_key_at(alloc, tree, db, theta, step)? {
            self.remove(step);
        }
        Ok(())
    }

    /// Forgets each step of which a substitution changes the target or the source.
    pub fn forget(
        &mut self,
        alloc: Global,
        tree: &Tree,
        db: &Database,
        theta: &Subst,
    ) -> Result<(), AllocError>
        requires { HasOwnLabels db.now tree.now.proof.plain }
        ensures fewer { OnOk result ((k : ℕ) → is_quiet self.new k ≡ true → is_quiet self.old k ≡ true) }
        ensures same { OnOk result ((k : ℕ) → 1 ≤ k → k ≤ size_of tree.now.proof.plain → is_quiet self.new k ≡ true → has_key_at db.now theta.now (step_at tree.now.proof.plain k) ≡ false) }
    {
        let size = tree.size();
        let mut done = 0;
        while done < size {
            done += 1;
            self.forget_at(alloc, tree, db, theta, done)?;
        }
        Ok(())
    }
}
