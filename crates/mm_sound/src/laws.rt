//! What holds of valid and complete proofs.

ghost use Rattle.std.specs.Prelude.{◌≡◌, ◌<◌, All, Bool, ℕ, true, false, List, [], ◌∷◌, Some, Ok, Err, Result, length};
ghost use Rattle.mm_scope.specs.Contents.{is_read, labels_of, stated_at, distinct_at};
ghost use Rattle.mm_stated.specs.declared.statement.Kind.TheVariants.{Theorem};
ghost use Rattle.mm_subst.specs.Statements.{statement_of};
ghost use Rattle.mm_subst.specs.declared.symbol.WSym.{WSym};
ghost use Rattle.mm_plain.specs.Shape.{Each, Proof, steps_of};
ghost use Rattle.mm_plain.specs.Binding.{has_works};
ghost use Rattle.mm_plain.specs.Valid.{IsValid};
ghost use Rattle.mm_stack.specs.Running.{run};
ghost use Rattle.mm_proof.specs.Compacting.{compact};
ghost use Rattle.mm_proof.specs.Decoding.{decoded, proof_of, spelled as read_text};
ghost use Rattle.mm_proof.specs.Encoding.{kind_of, compressed_proof};
ghost use Rattle.mm_proof.specs.Forests.{trees_in};
ghost use Rattle.mm_proof.specs.Spelling.{steps_read};
ghost use Rattle.mm_proof.specs.Standing.{MayProve};
ghost use Rattle.mm_proof.specs.Trees.{Tree};
ghost use Rattle.mm_stack.specs.Accepting.{Accepts, verdict_by, verdict_of};
ghost use Rattle.mm_proof.specs.declared.fault.ProofFault.{ProofFault};
ghost use Rattle.mm_stack.specs.declared.outcome.Verdict.TheVariants.{Accepted, Incomplete};
ghost use Rattle.mm_proof.specs.declared.step.ProofStep.{ProofStep};
ghost use Rattle.mm_plain.specs.Labels.{label_at};
ghost use Rattle.mm_sound.specs.Apart.{IsApart};
ghost use Rattle.mm_sound.specs.Complete.{IsComplete, IsPlainStep, IsSettled, has_unknown, spelled};
ghost use Rattle.mm_sound.specs.LabelTrees.{label_tree};
ghost use Rattle.mm_sound.specs.Numbers.{numbers};
ghost use Rattle.mm_sound.specs.Proves.{Proves};
ghost use Rattle.mm_sound.specs.Pushed.{IsSmall, Spells, pushed_proof, pushed_tree};
ghost use Rattle.mm_sound.specs.Substituted.{HasValues, substituted_in};
ghost use Rattle.mm_sound.specs.Written.{texts_in, written};

use mm_scope::mandatory_variables_differ;

/// The machine runs the steps of a valid and complete proof without a fault, and its stack is then the statement that is
/// proved, where each step keeps the pairs of variables that must differ (Metamath book, section 4.1.4). So it is with any
/// goal.
pub fn complete_proofs_run(bytes: &[u8])
    ensures of_theorem { (at : ℕ) (p : Proof) → Proves bytes.now at p → run bytes.now (distinct_at bytes.now at) (spelled bytes.now p.plain) ≡ Ok ((stated_at bytes.now at).symbols ∷ []) }
    ensures of_goal { (at : ℕ) (goal : List WSym) (groups : List (List ℕ)) (p : Proof) → IsValid bytes.now at goal p → IsComplete bytes.now p.plain → IsApart bytes.now groups p.plain → run bytes.now groups (spelled bytes.now p.plain) ≡ Ok (numbers goal ∷ []) }
{
    let _ = bytes;
}

/// So where a theorem's text spells these steps, by whatever decoding, the theorem is accepted.
pub fn complete_proofs_are_accepted(bytes: &[u8])
    ensures by_any { (at : ℕ) (p : Proof) (read : Result (List ProofStep) ProofFault) → Proves bytes.now at p → read ≡ Ok (spelled bytes.now p.plain) → verdict_by bytes.now at read ≡ Accepted }
    ensures by_text { (at : ℕ) (p : Proof) → Proves bytes.now at p → decoded bytes.now at ≡ Ok (spelled bytes.now p.plain) → verdict_of bytes.now at ≡ Accepted }
{
    let _ = bytes;
}

/// What is written for a valid proof, complete or not, spells its steps: a label for each step that is known, and `?` for
/// each that is not, in postorder.
pub fn written_proofs_spell_their_steps(bytes: &[u8])
    ensures { (at : ℕ) (goal : List WSym) (p : Proof) → at < length (labels_of bytes.now) → IsValid bytes.now at goal p → texts_in (proof_of bytes.now at) ≡ written bytes.now p.plain → decoded bytes.now at ≡ Ok (spelled bytes.now p.plain) }
{
    let _ = bytes;
}

/// A database says that a theorem holds, where the text of the theorem's proof is what is written for a valid and complete
/// proof of it, which keeps the pairs of variables that must differ.
pub fn written_proofs_are_accepted(bytes: &[u8])
    ensures { (at : ℕ) (p : Proof) → is_read bytes.now ≡ true → at < length (labels_of bytes.now) → (stated_at bytes.now at).kind ≡ Theorem → Proves bytes.now at p → texts_in (proof_of bytes.now at) ≡ written bytes.now p.plain → Accepts bytes.now (label_at bytes.now at) }
{
    let _ = bytes;
}

/// No step of a valid and complete proof has a work variable: neither its target, nor its source, nor a value of its
/// substitution.
pub fn complete_proofs_have_no_work_variables(bytes: &[u8])
    ensures { (at : ℕ) (goal : List WSym) (p : Proof) → IsValid bytes.now at goal p → IsComplete bytes.now p.plain → Each (IsPlainStep bytes.now) (steps_of p.plain) }
{
    let _ = bytes;
}

/// A valid proof in which no step is pending, and some step is unknown, is incomplete for the machine: it runs without a fault
/// up to the first unknown step. So is the theorem, where its text is what is written for this proof.
pub fn unknown_steps_leave_a_proof_incomplete(bytes: &[u8])
    ensures of_run { (at : ℕ) (goal : List WSym) (groups : List (List ℕ)) (p : Proof) → IsValid bytes.now at goal p → IsSettled bytes.now p.plain → IsApart bytes.now groups p.plain → has_unknown p.plain ≡ true → run bytes.now groups (spelled bytes.now p.plain) ≡ Err Incomplete }
    ensures of_text { (at : ℕ) (p : Proof) → at < length (labels_of bytes.now) → IsValid bytes.now at (statement_of bytes.now at) p → IsSettled bytes.now p.plain → IsApart bytes.now (distinct_at bytes.now at) p.plain → has_unknown p.plain ≡ true → texts_in (proof_of bytes.now at) ≡ written bytes.now p.plain → verdict_of bytes.now at ≡ Incomplete }
{
    let _ = bytes;
}

/// Written with back references, a valid and complete proof that keeps the pairs of variables runs to its statement too, and
/// is accepted (Metamath book, Appendix B); so is its text in the compressed form, wherever it stands. The steps that any valid proof spells fold to its label tree, and each label there
/// may stand in the theorem's proof.
pub fn compressed_proofs_are_accepted(bytes: &[u8])
    ensures runs { (at : ℕ) (p : Proof) → Proves bytes.now at p → run bytes.now (distinct_at bytes.now at) (steps_read (kind_of bytes.now) (compact (label_tree p.plain))) ≡ Ok ((stated_at bytes.now at).symbols ∷ []) }
    ensures accepted { (at : ℕ) (p : Proof) → Proves bytes.now at p → verdict_by bytes.now at (Ok (steps_read (kind_of bytes.now) (compact (label_tree p.plain)))) ≡ Accepted }
    ensures texts { (at from : ℕ) (p : Proof) → at < length (labels_of bytes.now) → Proves bytes.now at p → verdict_by bytes.now at (read_text bytes.now at from (compressed_proof bytes.now at (label_tree p.plain))) ≡ Accepted }
    ensures folds { (at : ℕ) (goal : List WSym) (p : Proof) → at < length (labels_of bytes.now) → IsValid bytes.now at goal p → trees_in bytes.now (spelled bytes.now p.plain) ≡ Some (label_tree p.plain ∷ []) }
    ensures stands { (at : ℕ) (goal : List WSym) (p : Proof) → at < length (labels_of bytes.now) → IsValid bytes.now at goal p → MayProve bytes.now at (label_tree p.plain) }
{
    let _ = bytes;
}

/// Each accepted proof is a proof tree (Metamath book, section 4.1.4). The steps that its text spells, in either form, fold to
/// one label tree, where a back reference is a copy. The strings that the machine pushes make of it a valid and complete proof
/// of the theorem, which keeps the pairs of variables that must differ, where it isn't too large. This proof has that label
/// tree, and no work variables, and its values are among those that the machine substitutes: they pass each test that these
/// do.
pub fn accepted_proofs_are_trees(bytes: &[u8])
    ensures tree { (at : ℕ) → verdict_of bytes.now at ≡ Accepted → (t : Tree) × Spells bytes.now at t }
    ensures proves { (at next : ℕ) (t : Tree) → verdict_of bytes.now at ≡ Accepted → Spells bytes.now at t → IsSmall t next → Proves bytes.now at (pushed_proof bytes.now t next) }
    ensures labels { (at : ℕ) (t : Tree) → verdict_of bytes.now at ≡ Accepted → Spells bytes.now at t → label_tree (pushed_tree bytes.now t) ≡ t }
    ensures plain { (at : ℕ) (t : Tree) → verdict_of bytes.now at ≡ Accepted → Spells bytes.now at t → has_works (pushed_tree bytes.now t) ≡ false }
    ensures values { (at : ℕ) (test : List WSym → Bool) (t : Tree) → verdict_of bytes.now at ≡ Accepted → Spells bytes.now at t → All (λ v. test v ≡ true) (substituted_in bytes.now at) → HasValues test (pushed_tree bytes.now t) }
{
    mandatory_variables_differ(bytes);
}
