//! How many work variables the steps of labels need.

ghost use Rattle.std.specs.Prelude.{◌≡◌, All};
ghost use Rattle.mm_plain.specs.Drawing.{draws_by};
ghost use Rattle.mm_plain.specs.Numbers.{IsOwnLabel};
ghost use Rattle.mm_tree.specs.Labelled.{AreCounted, draws_all};

use crate::fresh::count_variables;
use crate::labelled::OfLabelsFault;
use crate::tree::MOST_WORKS;
use mm_scope::{Database, StmtId};

/// How many work variables a step with a label needs.
fn draws_by(db: &Database, label: Option<u32>) -> usize
    requires { IsOwnLabel db.now label }
    ensures { result ≡ draws_by db.now label }
{
    match label {
        Some(id) => count_variables(db, StmtId(id)),
        None => 0,
    }
}

/// How many work variables steps with these labels need.
pub fn draws(db: &Database, labels: &[Option<u32>]) -> Result<u32, OfLabelsFault>
    requires { All (IsOwnLabel db.now) labels.now }
    ensures { AreCounted result (draws_all db.now labels.now) }
{
    let mut drawn = 0;
    for label in labels {
        let more = draws_by(db, *label);
        if more > (MOST_WORKS - drawn) as usize {
            return Err(OfLabelsFault::WorkSpent);
        }
        drawn += more as u32;
    }
    Ok(drawn)
}
