//! A part of a tree as a tree of its own, and a tree in the place of an unknown step.

ghost use Rattle.std.specs.Prelude.{◌≡◌, ◌+◌, ◌≤◌, ℕ, List, true, None, IfOk, OnOk};
ghost use Rattle.mm_subst.specs.declared.symbol.WSym.{WSym};
ghost use Rattle.mm_plain.specs.Grafts.{HasWorksBelow, grafted_in, part_at};
ghost use Rattle.mm_plain.specs.Shape.{size_of, step_at, depth_at, target_of};
ghost use Rattle.mm_plain.specs.Sources.{label_of};
ghost use Rattle.mm_plain.specs.Valid.{IsValid};
ghost use Rattle.mm_tree.specs.Lines.{Line};
ghost use Rattle.mm_tree.specs.Meanings.{count, mean, youngest};
ghost use Rattle.mm_tree.specs.Placed.{HasRoom, IsPlaced};
ghost use Rattle.mm_tree.specs.Versions.{BeginsAlike, HasNoDrafts, KeepsMarks, hand_length, line_of};
ghost use Rattle.mm_tree.specs.Written.{written};

use crate::fault::GraftFault;
use crate::node::Node;
use crate::tree::{MOST_LEVELS, MOST_STEPS, Tree, rooted};
use crate::writing::write_out;
use mm_base::Steps;
use std::alloc::{AllocError, Global};
use std::rc::Rc;
use std::sync::ledger::Ledger;

/// The subtree at a step, shared.
fn share_at(node: &Rc<Node>, step: u64) -> Result<Rc<Node>, AllocError>
    requires { (1 ≤ step) × (step ≤ count node.now.value) }
    ensures same { IfOk result (λ r. (line : Line) → mean r.value line ≡ step_at (mean node.now.value line) step) }
    ensures born { IfOk result (λ r. youngest r.value ≤ youngest node.now.value) }
{
    match node.child(step) {
        Some((child, left)) => share_at(child, left),
        None => Ok(node.clone()?),
    }
}

impl Tree {
    /// The tree at a step, with the same number of the next work variable, and without drafts. Its nodes are shared: none is
    /// made.
    pub fn part(&self, alloc: Global, step: u32) -> Result<Tree, AllocError>
        requires { (1 ≤ step) × (step ≤ size_of self.now.proof.plain) }
        ensures part { IfOk result (λ t. t.proof ≡ part_at self.now.proof step) }
        ensures settled { IfOk result (λ t. HasNoDrafts t.versions) }
        // Where the proof is valid for a theorem, the part is a valid proof of the step's target.
        ensures valid { IfOk result (λ t. (bytes : List ℕ) (at : ℕ) (goal : List WSym) → IsValid bytes at goal self.now.proof → IsValid bytes at (target_of (step_at self.now.proof.plain step)) t.proof) }
    {
        let root = share_at(self.root(), u64::from(step))?;
        let trail = self.line().copy(alloc)?;
        rooted(alloc, root, trail, self.next_work())
    }

    /// Whether a tree may stand in the place of an unknown step: whether the whole does not get too large by it.
    fn room_for(&self, step: u32, part: &Tree) -> Result<(), GraftFault>
        requires exists { (1 ≤ step) × (step ≤ size_of self.now.proof.plain) }
        requires unknown { label_of (step_at self.now.proof.plain step) ≡ None }
        ensures { HasRoom result (grafted_in self.now.proof step part.now.proof.plain) }
    {
        let step = u64::from(step);
        if part.hand().size() + self.hand().size() > MOST_STEPS + 1 {
            return Err(GraftFault::TooManySteps);
        }
        if self.hand().depth(step) + part.hand().height() > MOST_LEVELS {
            return Err(GraftFault::TooDeep);
        }
        Ok(())
    }

    /// The tree of the version in hand in new nodes, its strings with this birth.
    fn written<L: Ledger>(
        &self,
        alloc: Global,
        birth: usize,
        steps: &mut Steps<L>,
    ) -> Result<Rc<Node>, AllocError>
        ensures node { IfOk result (λ r. r.value ≡ written birth self.now.proof.plain) }
        ensures cost { steps.new ≤ steps.old + size_of self.now.proof.plain }
    {
        write_out(alloc, &self.line(), self.hand(), birth, steps)
    }

    /// Puts a tree in the place of an unknown step: its strings are written out into new nodes. Where that is refused this tree
    /// is as before. Each mark that is alive stays alive.
    pub fn graft<L: Ledger>(
        &mut self,
        alloc: Global,
        step: u32,
        part: &Tree,
        steps: &mut Steps<L>,
    ) -> Result<(), GraftFault>
        requires exists { (1 ≤ step) × (step ≤ size_of self.old.proof.plain) }
        requires unknown { label_of (step_at self.old.proof.plain step) ≡ None }
        ensures grafted { IsPlaced result self.old self.new (grafted_in self.old.proof step part.now.proof.plain) }
        ensures marks { KeepsMarks self.old.versions self.new.versions }
        ensures begun { BeginsAlike self.old.versions self.new.versions }
        ensures cost { steps.new ≤ steps.old + (depth_at self.old.proof.plain step + 1 + size_of part.now.proof.plain) }
        // A proof that is valid for a theorem stays valid, where the part is a valid proof of the step's target for the same
        // theorem, and has no work variables but those that were drawn.
        ensures valid { OnOk result ((bytes : List ℕ) (at : ℕ) (goal : List WSym) → IsValid bytes at goal self.old.proof → IsValid bytes at (target_of (step_at self.old.proof.plain step)) part.now.proof → HasWorksBelow self.old.proof.next part.now.proof.plain → IsValid bytes at goal self.new.proof) }
    {
        self.room_for(step, part)?;
        let birth = self.length();
        let node = part.written(alloc, birth, steps)?;
        self.replace_step(alloc, step, node, steps)?;
        Ok(())
    }
}
