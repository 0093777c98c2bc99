//! The tree of a list of labels.

ghost use Rattle.std.specs.Prelude.{◌≡◌, ◌+◌, ◌<◌, ◌≤◌, ℕ, Some, All, IfOk, length};
ghost use Rattle.mm_scope.specs.Contents.{labels_of};
ghost use Rattle.mm_subst.specs.Statements.{statement_of};
ghost use Rattle.mm_plain.specs.LabelTrees.{MayStand, fresh_proof_of};
ghost use Rattle.mm_plain.specs.Shape.{Proof};
ghost use Rattle.mm_plain.specs.Valid.{IsValid, most_steps};
ghost use Rattle.mm_tree.specs.Labelled.{FoldLow, IsBegun};
ghost use Rattle.mm_tree.specs.Versions.{HasNoDrafts};
ghost use Rattle.mm_tree.specs.declared.labelled.OfLabelsFault.TheVariants.{Memory};

use crate::drawing::draws;
use crate::rows::{fresh_rows, nodes_of};
use crate::tree::{Tree, rooted};
use mm_base::Steps;
use mm_scope::{Database, StmtId};
use mm_subst::statement;
use std::alloc::{AllocError, Global};
use std::sync::ledger::Ledger;
use thiserror::Error;

/// Why there is no tree of labels.
#[derive(Clone, Copy, Debug, PartialEq, Eq, Error)]
pub enum OfLabelsFault {
    /// A work variable with a number above 4,000,000,000 would be drawn.
    #[error("no work variable is left")]
    WorkSpent,
    /// Memory ran out.
    #[error("out of memory")]
    Memory,
}

impl From<AllocError> for OfLabelsFault {
    ghost from_gives = { λ _ e. e ≡ Memory };

    fn from(_e: AllocError) -> OfLabelsFault {
        OfLabelsFault::Memory
    }
}

impl Tree {
    /// The tree of a theorem's statement that labels in postorder fold to, with fresh work variables for the variables of what
    /// they name, drawn in this order; `None` is the label of an unknown step. The time is linear in the labels and their
    /// strings.
    ///
    /// # Errors
    /// `WorkSpent` exactly where a number above 4,000,000,000 would be drawn; no node is made then.
    pub fn of_labels<L: Ledger>(
        alloc: Global,
        db: &Database,
        at: StmtId,
        labels: &[Option<u32>],
        steps: &mut Steps<L>,
    ) -> Result<Tree, OfLabelsFault>
        requires own { at.0 < length (labels_of db.now) }
        requires stand { All (MayStand db.now at.0) labels.now }
        requires fold { FoldLow db.now labels.now }
        requires few { length labels.now ≤ most_steps }
        ensures begun { (p : Proof) → fresh_proof_of db.now (statement_of db.now at.0) labels.now ≡ Some p → IsBegun result p }
        ensures settled { IfOk result (λ t. HasNoDrafts t.versions) }
        ensures valid { IfOk result (λ t. IsValid db.now at.0 (statement_of db.now at.0) t.proof) }
        ensures cost { steps.new ≤ steps.old + length labels.now }
    {
        let next = draws(db, labels)? + 1;
        let goal = statement(alloc, db, at)?;
        let rows = fresh_rows(alloc, db, goal, labels, next)?;
        let mut nodes = nodes_of(alloc, db, rows, steps)?;
        match nodes.pop() {
            Some(root) => Ok(rooted(alloc, root, Vec::new(alloc), next)?),
            None => unreachable!(),
        }
    }
}
