//! Fresh work variables for the variables of a statement.

ghost use Rattle.std.specs.Prelude.{◌≡◌, ◌<◌, ◌≤◌, length};
ghost use Rattle.mm_scope.specs.Contents.{labels_of};
ghost use Rattle.mm_plain.specs.Premises.{premises_of};
ghost use Rattle.mm_edit.specs.Trying.{IsDrawnFor};

use crate::edit_fault::EditFault;
use mm_scope::{Database, StmtId, mandatory_variables_differ};
use mm_subst::Subst;
use mm_tree::{Tree, fresh_from, variables_for};
use std::alloc::Global;

/// Draws a work variable for each mandatory variable of a statement.
pub fn draw(alloc: Global, tree: &mut Tree, db: &Database, id: StmtId) -> Result<Subst, EditFault>
    requires own { id.0 < length (labels_of db.now) }
    requires few { length (premises_of db.now id.0) ≤ 2000000000 }
    ensures drawn { IsDrawnFor db.now id.0 result tree.old.proof tree.new.proof }
    ensures versions { tree.new.versions ≡ tree.old.versions }
{
    mandatory_variables_differ(db.bytes());
    let variables = variables_for(alloc, db, id)?;
    let first = tree.fresh(variables.len() as u32)?;
    Ok(fresh_from(alloc, variables.as_slice(), first)?)
}
