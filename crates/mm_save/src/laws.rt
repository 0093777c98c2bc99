//! What holds of a database after a proof is saved.

ghost use Rattle.std.specs.Prelude.{◌≡◌, ◌≢◌, ◌≤◌, ◌<◌, ℕ, true, false, List, [], None, length, slice_get};
ghost use Rattle.mm_scope.specs.Contents.{is_read, labels_of, stated_at, distinct_at};
ghost use Rattle.mm_scope.specs.Judged.{most_bytes};
ghost use Rattle.mm_stated.specs.declared.statement.Kind.TheVariants.{Theorem};
ghost use Rattle.mm_subst.specs.Statements.{statement_of};
ghost use Rattle.mm_subst.specs.declared.symbol.WSym.{WSym};
ghost use Rattle.mm_plain.specs.declared.plain.Plain.{Plain};
ghost use Rattle.mm_plain.specs.Numbers.{HasOwnLabels};
ghost use Rattle.mm_plain.specs.Shape.{Proof};
ghost use Rattle.mm_plain.specs.Sources.{is_pending};
ghost use Rattle.mm_plain.specs.Valid.{IsValid};
ghost use Rattle.mm_stack.specs.Accepting.{Accepts, verdict_of};
ghost use Rattle.mm_stack.specs.declared.outcome.Verdict.TheVariants.{Incomplete};
ghost use Rattle.mm_plain.specs.Labels.{label_at};
ghost use Rattle.mm_sound.specs.Apart.{IsApart};
ghost use Rattle.mm_sound.specs.Complete.{IsComplete, IsSettled, has_unknown};
ghost use Rattle.mm_sound.specs.LabelTrees.{label_tree};
ghost use Rattle.mm_sound.specs.Proves.{Proves};
ghost use Rattle.mm_save.specs.Clashes.{clashes_in};
ghost use Rattle.mm_save.specs.Outside.{HaveRoom, KeepsOutside, saved_in_turn};
ghost use Rattle.mm_save.specs.ReadBack.{SpellsTree};
ghost use Rattle.mm_save.specs.Saving.{saved};
ghost use Rattle.mm_save.specs.declared.form.Form.{Form};
ghost use Rattle.mm_save.specs.declared.form.Form.TheVariants.{Normal};

use mm_scope::StmtId;

/// A proof has no clash exactly where it keeps the pairs of variables that must differ (Metamath book, section 4.2.2).
pub fn proofs_without_clash_are_apart(bytes: &[u8])
    ensures apart { (groups : List (List ℕ)) (x : Plain) → slice_get (clashes_in bytes.now groups x) 0 ≡ None → IsApart bytes.now groups x }
    ensures back { (groups : List (List ℕ)) (x : Plain) → IsApart bytes.now groups x → clashes_in bytes.now groups x ≡ [] }
{
    let _ = bytes;
}

/// Where a valid and complete proof of a theorem is saved in either form, and keeps the pairs of variables that must differ,
/// the new database says that the theorem holds. So it is where the proof has no clash.
pub fn saved_proofs_are_accepted(bytes: &[u8], at: StmtId)
    requires read { is_read bytes.now ≡ true }
    requires own { at.0 < length (labels_of bytes.now) }
    requires theorem { (stated_at bytes.now at.0).kind ≡ Theorem }
    ensures proved { (form : Form) (p : Proof) → Proves bytes.now at.0 p → length (saved bytes.now at.0 form p.plain) ≤ most_bytes → Accepts (saved bytes.now at.0 form p.plain) (label_at bytes.now at.0) }
    ensures without_clash { (form : Form) (p : Proof) → IsValid bytes.now at.0 (statement_of bytes.now at.0) p → IsComplete bytes.now p.plain → slice_get (clashes_in bytes.now (distinct_at bytes.now at.0) p.plain) 0 ≡ None → length (saved bytes.now at.0 form p.plain) ≤ most_bytes
        → Accepts (saved bytes.now at.0 form p.plain) (label_at bytes.now at.0) }
{
    let _ = bytes;
}

/// A valid proof that is saved in either form, complete or not, is read back: its text spells steps that fold to its label tree.
pub fn saved_proofs_are_read_back(bytes: &[u8], at: StmtId)
    requires read { is_read bytes.now ≡ true }
    requires own { at.0 < length (labels_of bytes.now) }
    requires theorem { (stated_at bytes.now at.0).kind ≡ Theorem }
    ensures { (form : Form) (p : Proof) → IsValid bytes.now at.0 (statement_of bytes.now at.0) p → length (saved bytes.now at.0 form p.plain) ≤ most_bytes → SpellsTree bytes.now (saved bytes.now at.0 form p.plain) at.0 (label_tree p.plain) }
{
    let _ = bytes;
}

/// Where a valid proof in which no step is pending, and some step is unknown, is saved in the normal form, and keeps the pairs
/// of variables that must differ, the theorem's proof is incomplete.
pub fn incomplete_saves_are_incomplete(bytes: &[u8], at: StmtId)
    requires read { is_read bytes.now ≡ true }
    requires own { at.0 < length (labels_of bytes.now) }
    requires theorem { (stated_at bytes.now at.0).kind ≡ Theorem }
    ensures { (p : Proof) → IsValid bytes.now at.0 (statement_of bytes.now at.0) p → IsSettled bytes.now p.plain → IsApart bytes.now (distinct_at bytes.now at.0) p.plain → has_unknown p.plain ≡ true → length (saved bytes.now at.0 Normal p.plain) ≤ most_bytes → verdict_of (saved bytes.now at.0 Normal p.plain) at.0 ≡ Incomplete }
{
    let _ = bytes;
}

/// The other theorems that hold are the same, whatever proof is saved.
pub fn other_theorems_stay(bytes: &[u8], at: StmtId)
    requires read { is_read bytes.now ≡ true }
    requires theorem { (stated_at bytes.now at.0).kind ≡ Theorem }
    ensures kept { (form : Form) (x : Plain) (label : List ℕ) → HasOwnLabels bytes.now x → length (saved bytes.now at.0 form x) ≤ most_bytes → label ≢ label_at bytes.now at.0 → Accepts bytes.now label → Accepts (saved bytes.now at.0 form x) label }
    ensures back { (form : Form) (x : Plain) (label : List ℕ) → HasOwnLabels bytes.now x → length (saved bytes.now at.0 form x) ≤ most_bytes → label ≢ label_at bytes.now at.0 → Accepts (saved bytes.now at.0 form x) label → Accepts bytes.now label }
{
    let _ = bytes;
}

/// The bytes before a theorem's proof and those from its end on stay, however often a proof of it is saved. A save after
/// another gives what it gives without the other.
pub fn saves_keep_the_outside(bytes: &[u8], at: StmtId)
    requires read { is_read bytes.now ≡ true }
    requires theorem { (stated_at bytes.now at.0).kind ≡ Theorem }
    ensures outside { (xs : List (Form × Plain)) → HaveRoom bytes.now at.0 xs → KeepsOutside bytes.now at.0 (saved_in_turn bytes.now at.0 xs) }
    ensures again { (form other : Form) (x y : Plain) → HasOwnLabels bytes.now x → length (saved bytes.now at.0 form x) ≤ most_bytes → saved (saved bytes.now at.0 form x) at.0 other y ≡ saved bytes.now at.0 other y }
{
    let _ = bytes;
}

/// A proof that is valid for a theorem stays so, where a proof of the same or of another theorem is saved. Each statement is
/// the same string, and the same steps are pending.
pub fn valid_proofs_stay_valid(bytes: &[u8], at: StmtId)
    requires read { is_read bytes.now ≡ true }
    requires theorem { (stated_at bytes.now at.0).kind ≡ Theorem }
    ensures valid { (form : Form) (x : Plain) (other : ℕ) (goal : List WSym) (q : Proof) → HasOwnLabels bytes.now x → length (saved bytes.now at.0 form x) ≤ most_bytes → IsValid bytes.now other goal q → IsValid (saved bytes.now at.0 form x) other goal q }
    ensures statements { (form : Form) (x : Plain) (id : ℕ) → HasOwnLabels bytes.now x → length (saved bytes.now at.0 form x) ≤ most_bytes → statement_of (saved bytes.now at.0 form x) id ≡ statement_of bytes.now id }
    ensures pending { (form : Form) (x y : Plain) → HasOwnLabels bytes.now x → length (saved bytes.now at.0 form x) ≤ most_bytes → is_pending (saved bytes.now at.0 form x) y ≡ is_pending bytes.now y }
{
    let _ = bytes;
}
