//! What stays where a theorem's proof is replaced.

ghost use Rattle.std.specs.Prelude.{◌≡◌, ◌≢◌, ◌≤◌, ℕ, true, List, [], ◌∷◌, ◌++◌, Option, length};
ghost use Rattle.mm_scope.specs.Contents.{is_read, stated_at};
ghost use Rattle.mm_scope.specs.Judged.{most_bytes};
ghost use Rattle.mm_stated.specs.declared.statement.Kind.TheVariants.{Theorem};
ghost use Rattle.mm_splice.specs.Agreeing.{AgreesWith, JudgesAs, CanBeMade, CanAllBeMade, after_save, after_saves};
ghost use Rattle.mm_splice.specs.Judging.{JudgesTheRest};
ghost use Rattle.mm_splice.specs.Keeping.{KeepsTheRest};
ghost use Rattle.mm_splice.specs.Overlay.{Save, last_text};
ghost use Rattle.mm_splice.specs.Splicing.{spliced, is_proof_text};

use mm_scope::StmtId;

/// Where the proof of a theorem of a database that is read is replaced by a proof's text, and the bytes are not too many,
/// the bytes are read and say the same: the same labels and symbols; of each statement the same kind, symbols, mandatory
/// hypotheses and pairs; the same is active at each. The proof of each other theorem is the same bytes, and that of the
/// theorem is the text.
pub fn splicing_keeps(bytes: &[u8], id: StmtId, text: &[u8])
    requires read { is_read bytes.now ≡ true }
    requires theorem { (stated_at bytes.now id.0).kind ≡ Theorem }
    requires text { is_proof_text text.now ≡ true }
    requires room { length (spliced bytes.now id.0 text.now) ≤ most_bytes }
    ensures { KeepsTheRest bytes.now id.0 text.now }
{
    let _ = bytes;
    let _ = text;
}

/// And what is judged of proofs stays (Metamath book, section 4.1.4): each other theorem's proof spells the same steps or has
/// the same fault, at the place where it stands now, and the same comes of it. So the other theorems that are accepted are the
/// same ones. Of the theorem itself comes what the text spells in the database as it was.
pub fn splicing_keeps_verdicts(bytes: &[u8], id: StmtId, text: &[u8])
    requires read { is_read bytes.now ≡ true }
    requires theorem { (stated_at bytes.now id.0).kind ≡ Theorem }
    requires text { is_proof_text text.now ≡ true }
    requires room { length (spliced bytes.now id.0 text.now) ≤ most_bytes }
    ensures { JudgesTheRest bytes.now id.0 text.now }
{
    let _ = bytes;
    let _ = text;
}

/// A database in which theorems' proofs were saved, one after another, is the file that was read, overlaid with the last
/// saved text of each theorem that was saved, and nothing else; and it says the same of all but these proofs. That holds of
/// the file itself, stays with each save, and so holds after any saves.
pub fn saves_overlay_the_file(file: &[u8])
    requires read { is_read file.now ≡ true }
    ensures before_saves { AgreesWith file.now (last_text []) file.now }
    ensures with_a_save { (saves : List Save) (now : List ℕ) (save : Save) → AgreesWith file.now (last_text saves) now → CanBeMade file.now now save → AgreesWith file.now (last_text (saves ++ save ∷ [])) (after_save now save) }
    ensures one_more { (saves : List Save) (save : Save) → after_saves file.now (saves ++ save ∷ []) ≡ after_save (after_saves file.now saves) save }
    ensures can_be_made { (saves : List Save) (save : Save) → CanAllBeMade file.now file.now saves → CanBeMade file.now (after_saves file.now saves) save → CanAllBeMade file.now file.now (saves ++ save ∷ []) }
    ensures after_all { (saves : List Save) → CanAllBeMade file.now file.now saves → AgreesWith file.now (last_text saves) (after_saves file.now saves) }
{
    let _ = file;
}

/// What is judged of proofs after saves: of a theorem of which nothing was saved the same as in the file that was read, but that
/// a place in its proof's fault is the one now; and of each other what its last saved text spells in that file.
pub fn saves_decide_verdicts(file: &[u8])
    requires read { is_read file.now ≡ true }
    ensures { (saved : ℕ → Option (List ℕ)) (now : List ℕ) → AgreesWith file.now saved now → JudgesAs file.now saved now }
{
    let _ = file;
}

/// Saves that leave each theorem the same last text give the same bytes. So two theorems may be saved in either order, and
/// of two saves of one theorem the first leaves nothing.
pub fn last_saves_decide(file: &[u8])
    requires read { is_read file.now ≡ true }
    ensures same { (saves others : List Save) → CanAllBeMade file.now file.now saves → CanAllBeMade file.now file.now others → ((id : ℕ) → last_text saves id ≡ last_text others id) → after_saves file.now saves ≡ after_saves file.now others }
    ensures either_order { (a b : Save) → a.theorem ≢ b.theorem → CanAllBeMade file.now file.now (a ∷ b ∷ []) → CanAllBeMade file.now file.now (b ∷ a ∷ []) → after_saves file.now (a ∷ b ∷ []) ≡ after_saves file.now (b ∷ a ∷ []) }
    ensures once { (a b : Save) → a.theorem ≡ b.theorem → CanAllBeMade file.now file.now (a ∷ b ∷ []) → CanBeMade file.now file.now b → after_saves file.now (a ∷ b ∷ []) ≡ after_saves file.now (b ∷ []) }
{
    let _ = file;
}
