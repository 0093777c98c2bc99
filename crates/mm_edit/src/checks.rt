//! What an edit asks of the step that it is given.

ghost use Rattle.std.specs.Prelude.{◌≡◌, ◌≤◌};
ghost use Rattle.mm_plain.specs.Shape.{size_of};
ghost use Rattle.mm_edit.specs.Steps.{has_step, is_unknown};

use mm_tree::Tree;

/// Whether a step has this number.
pub fn has_step(tree: &Tree, step: u32) -> bool
    ensures { result ≡ has_step tree.now.proof.plain step }
{
    step >= 1 && step <= tree.size()
}

/// Whether a step names no statement.
pub fn is_unknown(tree: &Tree, step: u32) -> bool
    requires { (1 ≤ step) × (step ≤ size_of tree.now.proof.plain) }
    ensures { result ≡ is_unknown tree.now.proof.plain step }
{
    tree.label(step).is_none()
}
