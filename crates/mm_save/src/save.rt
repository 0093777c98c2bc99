//! Saving a proof.

ghost use Rattle.std.specs.Prelude.{◌≡◌, ◌<◌, length};
ghost use Rattle.mm_scope.specs.Contents.{labels_of, stated_at};
ghost use Rattle.mm_stated.specs.declared.statement.Kind.TheVariants.{Theorem};
ghost use Rattle.mm_subst.specs.Statements.{statement_of};
ghost use Rattle.mm_plain.specs.Valid.{IsValid};
ghost use Rattle.mm_save.specs.Saved.{AnswersSave};

use crate::fault::SaveFault;
use crate::form::Form;
use crate::text::proof_text;
use mm_scope::{Database, StmtId};
use mm_splice::{SpliceFault, splice};
use mm_tree::Tree;
use std::alloc::Global;

/// The database with the proof in hand in place of the old proof of a theorem, in a form. The theorem is the database's own,
/// and the proof is a valid one of it, complete or not. The fault TooLong comes where the database would have more than
/// 134,217,728 bytes.
pub fn save_tree(
    alloc: Global,
    db: &Database,
    at: StmtId,
    form: Form,
    tree: &Tree,
) -> Result<Database, SaveFault>
    requires own { at.0 < length (labels_of db.now) }
    requires theorem { (stated_at db.now at.0).kind ≡ Theorem }
    requires valid { IsValid db.now at.0 (statement_of db.now at.0) tree.now.proof }
    ensures { AnswersSave db.now at.0 form tree.now.proof.plain result }
{
    let text = proof_text(alloc, db, at, form, tree)?;
    match splice(alloc, db, at, text.as_slice()) {
        Ok(saved) => Ok(saved),
        Err(SpliceFault::TooLong) => Err(SaveFault::TooLong),
        Err(SpliceFault::Memory) => Err(SaveFault::Memory),
    }
}
