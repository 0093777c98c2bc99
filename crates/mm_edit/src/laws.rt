//! What holds of each edit.

ghost use Rattle.std.specs.Prelude.{◌≡◌, true, ℕ, List, Option, Ok, None, Some, All};
ghost use Rattle.mm_subst.specs.declared.symbol.WSym.{WSym};
ghost use Rattle.mm_unify.specs.declared.listing.Settings.{Settings};
ghost use Rattle.mm_plain.specs.Shape.{Proof, steps_of};
ghost use Rattle.mm_plain.specs.Valid.{IsKnownSymbol, IsString, setting_of};
ghost use Rattle.mm_plain.specs.LabelTrees.{fresh_proof_of};
ghost use Rattle.mm_proof.specs.Trees.{Tree};
ghost use Rattle.mm_subst.specs.Statements.{statement_of};
ghost use Rattle.mm_edit.specs.Assigning.{assigned};
ghost use Rattle.mm_edit.specs.Built.{IsBuiltProof};
ghost use Rattle.mm_edit.specs.Deleting.{deleted, floats_deleted};
ghost use Rattle.mm_edit.specs.Improving.{MapsToProofs, ProofMap, all_improved, improved};
ghost use Rattle.mm_edit.specs.Initializing.{all_initialized, initialized};
ghost use Rattle.mm_edit.specs.Keeping.{IsKept, IsProofOf};
ghost use Rattle.mm_edit.specs.Labelling.{label_tree_at, labels_for};
ghost use Rattle.mm_edit.specs.Letting.{step_let, variable_let};
ghost use Rattle.mm_edit.specs.Loading.{all_visited, loading, may_label, measured};
ghost use Rattle.mm_edit.specs.Replacing.{replaced};
ghost use Rattle.mm_edit.specs.Unifying.{all_unified, first_unifier, step_unified};

use mm_scope::mandatory_variables_differ;

/// Each accepted edit of a valid proof gives a valid proof of the same goal, and its counter of work variables never
/// falls. What is let for a work variable or for a step has symbols of the database, and work variables that were drawn. What
/// is found for a step is a proof of what it is to prove.
pub fn accepted_edits_keep_proofs_valid(bytes: &[u8])
    ensures assigned { (at k id : ℕ) (set : Settings) (goal : List WSym) (p q : Proof) → IsProofOf bytes.now at goal p → assigned bytes.now at set p k id ≡ Ok q → IsKept bytes.now at goal p q }
    ensures replaced { (at k id : ℕ) (set : Settings) (goal : List WSym) (p q : Proof) → IsProofOf bytes.now at goal p → replaced bytes.now at set p k id ≡ Ok q → IsKept bytes.now at goal p q }
    ensures variable_let { (at n : ℕ) (goal value : List WSym) (p q : Proof) → IsProofOf bytes.now at goal p → All (IsKnownSymbol (setting_of bytes.now at p)) value → variable_let bytes.now p n value ≡ Ok q → IsKept bytes.now at goal p q }
    ensures step_let { (at k : ℕ) (set : Settings) (goal text : List WSym) (p q : Proof) → IsProofOf bytes.now at goal p → IsString (setting_of bytes.now at p) text → step_let bytes.now set p k text ≡ Ok q → IsKept bytes.now at goal p q }
    ensures step_unified { (at k : ℕ) (set : Settings) (choice : Option ℕ) (goal : List WSym) (p q : Proof) → IsProofOf bytes.now at goal p → step_unified bytes.now set p k choice ≡ Ok q → IsKept bytes.now at goal p q }
    ensures all_unified { (at : ℕ) (set : Settings) (goal : List WSym) (p q : Proof) → IsProofOf bytes.now at goal p → all_unified bytes.now set p ≡ Ok q → IsKept bytes.now at goal p q }
    ensures initialized { (at k : ℕ) (goal : List WSym) (p q : Proof) → IsProofOf bytes.now at goal p → initialized bytes.now p k ≡ Ok q → IsKept bytes.now at goal p q }
    ensures all_initialized { (at : ℕ) (goal : List WSym) (p q : Proof) → IsProofOf bytes.now at goal p → all_initialized bytes.now p ≡ Ok q → IsKept bytes.now at goal p q }
    ensures improved { (at k : ℕ) (prove : ProofMap) (goal : List WSym) (p q : Proof) → MapsToProofs bytes.now at prove → IsProofOf bytes.now at goal p → improved prove p k ≡ Ok q → IsKept bytes.now at goal p q }
    ensures all_improved { (at : ℕ) (prove : ProofMap) (goal : List WSym) (p q : Proof) → MapsToProofs bytes.now at prove → IsProofOf bytes.now at goal p → all_improved prove p ≡ Ok q → IsKept bytes.now at goal p q }
    ensures deleted { (at k : ℕ) (goal : List WSym) (p q : Proof) → IsProofOf bytes.now at goal p → deleted p k ≡ Ok q → IsKept bytes.now at goal p q }
    ensures floats_deleted { (at : ℕ) (goal : List WSym) (p q : Proof) → IsProofOf bytes.now at goal p → floats_deleted bytes.now p ≡ Ok q → IsKept bytes.now at goal p q }
{
    let _ = bytes;
}

/// After UNIFY ALL no pending step has a whole listing of exactly one unifier.
pub fn unify_all_leaves_no_only_unifier(bytes: &[u8])
    ensures { (at : ℕ) (set : Settings) (goal : List WSym) (p q : Proof) → IsProofOf bytes.now at goal p → all_unified bytes.now set p ≡ Ok q → first_unifier bytes.now set (steps_of q.plain) ≡ None }
{
    let _ = bytes;
}

/// A built proof is what loading comes to: the visits of the steps of the tree that its labels begin, with fresh work
/// variables, give this proof.
pub fn built_proofs_are_loaded(bytes: &[u8])
    ensures visited { (at : ℕ) (set : Settings) (labels : List (Option ℕ)) (p q : Proof) → IsBuiltProof bytes.now at set labels p → fresh_proof_of bytes.now (statement_of bytes.now at) labels ≡ Some q → all_visited bytes.now set q ≡ Ok p }
    ensures loaded { (at : ℕ) (set : Settings) (t : Tree) (p : Proof) → measured (label_tree_at bytes.now at) ≡ Ok t → may_label bytes.now at t ≡ true → IsBuiltProof bytes.now at set (labels_for t) p → loading bytes.now at set ≡ Ok p }
{
    mandatory_variables_differ(bytes);
}
