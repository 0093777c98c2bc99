ghost use Rattle.std.specs.Prelude.{◌≡◌, IfOk, length, slice_get};
ghost use Rattle.mm_plain.specs.Numbers.{HasOwnLabels, labels_in, pending_in};
ghost use Rattle.mm_plain.specs.Shape.{size_of};
ghost use Rattle.mm_tree.specs.Versions.{HasNoDrafts};
ghost use Rattle.mm_shell.specs.OpenProofs.{after_redo, after_save, after_undo, opened_of, with_depth};

use mm_scope::{Database, StmtId};
use mm_tree::{Memory, Tree};
use mm_undo::{History, Rings};
use std::alloc::Global;
use std::marker::Model;

/// An open proof: its theorem, how far it has come, what it was before its edits and what was undone, and whether it was
/// changed since it was opened or saved.
///
/// Whoever has it holds a history of the tree, and a tree without drafts. An edit makes drafts in the tree, and ends in
/// `History::accept`, or goes back.
#[derive(Drop)]
pub struct OpenProof {
    pub theorem: StmtId,
    pub tree: Tree,
    pub history: History,
    pub changed: bool,
}

impl Model for OpenProof {
    ghost use Rattle.mm_shell.specs.OpenProofs.{IsAtRest, ProofState, seen_as};
    ghost use Rattle.mm_plain.specs.contracts.plain.Plain as e;
    ghost use Rattle.std.specs.Coded.{codes};

    ghost Value = { ProofState };

    ghost coded = { Prim.hlevel (codes, e.the_row.coded) };

    ghost view = { λ p. seen_as p.theorem.0 p.tree p.history p.changed };

    ghost invariant = { λ p. IsAtRest p.tree.versions p.history };
}

impl OpenProof {
    /// The proof of a theorem as it is opened: a tree without drafts, and a history that keeps so many versions.
    pub fn new(alloc: Global, theorem: StmtId, tree: Tree, depth: u32) -> Result<OpenProof, Memory>
        requires { HasNoDrafts tree.versions }
        ensures { IfOk result (λ p. p ≡ opened_of theorem.0 tree.proof depth) }
    {
        let history = History::new(alloc, depth)?;
        Ok(OpenProof {
            theorem,
            tree,
            history,
            changed: false,
        })
    }

    /// The theorem that is proved.
    pub fn theorem(&self) -> StmtId
        ensures { result.0 ≡ self.now.theorem }
    {
        self.theorem
    }

    /// The proof as a tree.
    pub fn tree(&self) -> &Tree
        ensures { result.now.proof ≡ self.now.proof }
    {
        &self.tree
    }

    /// How many versions can be undone.
    pub fn past_count(&self) -> usize
        ensures { result ≡ length self.now.past }
    {
        self.history.past_count()
    }

    /// How many versions can be done again.
    pub fn future_count(&self) -> usize
        ensures { result ≡ length self.now.future }
    {
        self.history.future_count()
    }

    /// Whether it was changed since it was opened or saved.
    pub fn changed(&self) -> bool
        ensures { result ≡ self.now.changed }
    {
        self.changed
    }

    /// How many steps it has.
    pub fn steps(&self) -> u32
        ensures { result ≡ size_of self.now.proof.plain }
    {
        self.tree.size()
    }

    /// What each step names, in order; `None` where the step is unknown.
    pub fn labels(&self, alloc: Global) -> Result<Vec<Option<u32>>, Memory>
        ensures { IfOk result (λ v. v.items ≡ labels_in self.now.proof.plain) }
    {
        self.tree.labels(alloc)
    }

    /// The number of the first pending step.
    pub fn first_pending(&self, alloc: Global, database: &Database) -> Result<Option<u32>, Memory>
        requires { HasOwnLabels database.now self.now.proof.plain }
        ensures { IfOk result (λ step. step ≡ slice_get (pending_in database.now self.now.proof.plain) 0) }
    {
        let pending = self.tree.pending_steps(alloc, database)?;
        Ok(pending.first().copied())
    }

    /// Goes back to the proof before the last edit, where there was one.
    pub fn undo(&mut self)
        ensures { self.new ≡ after_undo self.old }
    {
        if self.history.undo(&mut self.tree) {
            self.changed = true;
        }
    }

    /// Goes forward to the proof that was undone last, where there is one.
    pub fn redo(&mut self)
        ensures { self.new ≡ after_redo self.old }
    {
        if self.history.redo(&mut self.tree) {
            self.changed = true;
        }
    }

    /// Moves its history into other rings: the newest proofs of the past that they hold stay, and nothing is left to redo.
    pub fn move_history(&mut self, rings: Rings)
        ensures { self.new ≡ with_depth rings self.old }
    {
        self.history.move_to(rings);
    }

    /// Marks it as saved.
    pub fn note_save(&mut self)
        ensures { self.new ≡ after_save self.old }
    {
        self.changed = false;
    }
}
