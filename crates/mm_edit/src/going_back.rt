//! Going back where an edit is refused.

ghost use Rattle.std.specs.Prelude.{◌≡◌, MatchResult};
ghost use Rattle.mm_tree.specs.Versions.{IsAlive};
ghost use Rattle.mm_edit.specs.Trying.{IsBack};

use crate::edit_fault::EditFault;
use mm_tree::{Mark, Tree};

/// Goes back to a version where an edit of several calls is refused, or memory ran out in it.
pub fn back_where_refused<T>(
    tree: &mut Tree,
    before: Mark,
    tried: Result<T, EditFault>,
) -> Result<T, EditFault>
    requires { IsAlive tree.old.versions before }
    ensures same { result ≡ tried }
    ensures left { MatchResult result (λ _. tree.new ≡ tree.old) (λ _. IsBack before tree.old tree.new) }
{
    if tried.is_err() {
        tree.back(before);
    }
    tried
}
