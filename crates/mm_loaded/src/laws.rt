//! What loading makes of an accepted proof.

ghost use Rattle.std.specs.Prelude.{◌≡◌, ℕ, Some};
ghost use Rattle.mm_edit.specs.Labelling.{label_tree_at};
ghost use Rattle.mm_proof.specs.Trees.{Tree};
ghost use Rattle.mm_stack.specs.Accepting.{verdict_of};
ghost use Rattle.mm_stack.specs.declared.outcome.Verdict.TheVariants.{Accepted};
ghost use Rattle.mm_unify.specs.declared.listing.Settings.{Settings};
ghost use Rattle.mm_loaded.specs.Loads.{HasSureValues, IsLight, Loads};

use mm_edit::built_proofs_are_loaded;
use mm_sound::accepted_proofs_are_trees;

/// Loading gives a proof of each accepted theorem (Metamath book, section 4.1.4). The text of an accepted proof, in either
/// form, has a label tree. Where this is not too large, and each value that the machine substitutes is surely found by a
/// search under the settings, loading gives the proof whose strings are those that the machine pushes: valid and complete, with its pairs of
/// variables kept, and with that label tree.
pub fn accepted_proofs_are_loaded(bytes: &[u8])
    ensures tree { (at : ℕ) → verdict_of bytes.now at ≡ Accepted → (t : Tree) × (label_tree_at bytes.now at ≡ Some t) }
    ensures loads { (at : ℕ) (set : Settings) (t : Tree) → verdict_of bytes.now at ≡ Accepted → label_tree_at bytes.now at ≡ Some t → IsLight bytes.now t → HasSureValues bytes.now at set → Loads bytes.now at set t }
{
    accepted_proofs_are_trees(bytes);
    built_proofs_are_loaded(bytes);
}
