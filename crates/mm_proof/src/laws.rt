//! What holds of the letters and the steps of proofs.

ghost use Rattle.std.specs.Prelude.{◌≡◌, ◌≢◌, ◌<◌, ◌++◌, [], ◌∷◌, ℕ, List, Some, Ok, true, All, map, IsPermutation};
ghost use Rattle.mm_scope.specs.Contents.{stated_at};
ghost use Rattle.mm_stated.specs.Stated.{is_hypothesis};
ghost use Rattle.mm_proof.specs.Backs.{AreBacks};
ghost use Rattle.mm_proof.specs.Compacting.{compact};
ghost use Rattle.mm_proof.specs.Encoding.{kind_of, own_labels, listed_labels, letters_for, normal_proof, compressed_proof};
ghost use Rattle.mm_proof.specs.Forests.{arity_of, trees_in};
ghost use Rattle.mm_proof.specs.Numbers.{Spells, letters_of};
ghost use Rattle.mm_proof.specs.Reading.{placed, read};
ghost use Rattle.mm_proof.specs.Spelling.{letters, steps_read, HasLabels};
ghost use Rattle.mm_proof.specs.Decoding.{spelled};
ghost use Rattle.mm_proof.specs.Standing.{MayProve, normal_steps};
ghost use Rattle.mm_proof.specs.Trees.{Tree, AreWhole, trees_of};
ghost use Rattle.mm_proof.specs.declared.step.StepKind.{StepKind};
ghost use Rattle.mm_proof.specs.declared.written.Step.{Step};

/// The letters of a number are its only spelling. The letters that are written for a label tree are read as its steps, which
/// fold to the tree, wherever they stand; and so are those over any other order of the listed labels.
pub fn letters_come_back()
    ensures spells { (n : ℕ) → 0 < n → Spells 0 (letters_of n) n }
    ensures only { (ls : List ℕ) (n : ℕ) → Spells 0 ls n → ls ≡ letters_of n }
    ensures reads { (bytes : List ℕ) (at place : ℕ) (t : Tree) → read (map (kind_of bytes) (own_labels bytes at ++ listed_labels bytes at t)) (placed place (letters_for bytes at t)) ≡ Ok (steps_read (kind_of bytes) (compact t)) }
    ensures folds { (bytes : List ℕ) (t : Tree) → AreWhole (arity_of bytes) (trees_of (t ∷ [])) → trees_in bytes (steps_read (kind_of bytes) (compact t)) ≡ Some (t ∷ []) }
    ensures any_order { (f : ℕ → StepKind) (own list other : List ℕ) (steps : List Step) (place : ℕ) → IsPermutation list other → steps ≢ [] → AreBacks [] steps → HasLabels (own ++ list) steps
        → read (map f (own ++ other)) (placed place (letters (own ++ other) steps)) ≡ Ok (steps_read f steps) }
{}

/// The text of a normal proof that is written for a label tree is read as steps that fold to the tree, wherever it stands:
/// each label takes as many trees as it has mandatory hypotheses, and may stand in the theorem's proof.
pub fn normal_proofs_come_back()
    ensures reads { (bytes : List ℕ) (at from : ℕ) (t : Tree) → MayProve bytes at t → spelled bytes at from (normal_proof bytes t) ≡ Ok (normal_steps bytes t) }
    ensures folds { (bytes : List ℕ) (at : ℕ) (t : Tree) → MayProve bytes at t → trees_in bytes (normal_steps bytes t) ≡ Some (t ∷ []) }
{}

/// The same of the text of a compressed proof. A theorem's mandatory hypotheses are hypotheses, as `Database::frame` says.
pub fn compressed_proofs_come_back()
    ensures reads { (bytes : List ℕ) (at from : ℕ) (t : Tree) → MayProve bytes at t → All (λ m. is_hypothesis (stated_at bytes m).kind ≡ true) (stated_at bytes at).mandatory
        → spelled bytes at from (compressed_proof bytes at t) ≡ Ok (steps_read (kind_of bytes) (compact t)) }
    ensures folds { (bytes : List ℕ) (at : ℕ) (t : Tree) → MayProve bytes at t → trees_in bytes (steps_read (kind_of bytes) (compact t)) ≡ Some (t ∷ []) }
{}
