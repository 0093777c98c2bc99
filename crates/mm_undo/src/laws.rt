//! What edits keep of a history, and what many steps back and forward come to.

ghost use Rattle.std.specs.Prelude.{◌≡◌, ◌≤◌, ◌+◌, ℕ, false, true, length};
ghost use Rattle.mm_plain.specs.Shape.{Proof};
ghost use Rattle.mm_tree.specs.Versions.{BeginsAlike, HasNoDrafts, IsAlive, KeepsMarks, KeepsUpTo, StandsAt, Versions, is_draft, named};
ghost use Rattle.mm_tree.specs.declared.tree.Mark.{Mark};
ghost use Rattle.mm_undo.specs.Histories.{IsHistoryOf, IsMarkOfBeginning, IsRedone, IsUndone, KeepsSettled, Lists, Marks, lists_of};
ghost use Rattle.mm_undo.specs.Undos.{Timeline, timeline_of, newest, redone, undone};

/// A mark that is taken where there are no drafts is of the version at which the drafts begin, and stays so. Where an edit keeps
/// the marks of settled versions, and the drafts begin where they began, the history and its proofs stay. Each call of a tree but
/// `settle` keeps these marks; going back to that mark leaves where the drafts began, as the edits do.
pub fn edits_keep_histories()
    ensures mark { (v : Versions) (m : Mark) → HasNoDrafts v → is_draft m ≡ false → IsAlive v m → StandsAt v m.root m.length → IsMarkOfBeginning v m }
    ensures edit { (v w : Versions) (h : Marks) → KeepsSettled v w → BeginsAlike v w → IsHistoryOf v h → IsHistoryOf w h × (lists_of w h ≡ lists_of v h) }
    ensures begun { (v w : Versions) (m : Mark) → KeepsSettled v w → BeginsAlike v w → IsMarkOfBeginning v m → IsMarkOfBeginning w m × (named w m ≡ named v m) }
    ensures kept { (v w : Versions) → KeepsMarks v w → KeepsSettled v w }
    ensures kept_back { (v w : Versions) (m : Mark) → KeepsUpTo m v w → KeepsSettled v w }
    ensures back { (v w : Versions) (m : Mark) → IsMarkOfBeginning v m → HasNoDrafts w → StandsAt w m.root m.length → BeginsAlike v w }
{}

/// Steps back, one after the other, are `undone` of their number. As many as there are proofs of the past are accepted. The
/// k-th leads to the k-th proof of the past, counted from the newest, and as many steps forward lead to the proof, the past
/// and the future again.
pub fn undos_lead_back()
    ensures none { (p : Proof) (l : Lists) → undone 0 (timeline_of l p) ≡ timeline_of l p }
    ensures step { (k : ℕ) (t : Timeline) (p q : Proof) (old new : Lists) → k + 1 ≤ length t.past → timeline_of old p ≡ undone k t → IsUndone true old new p q → timeline_of new q ≡ undone (k + 1) t }
    ensures left { (k : ℕ) (t : Timeline) → k ≤ length t.past → length (undone k t).past + k ≡ length t.past }
    ensures ahead { (k : ℕ) (t : Timeline) → k ≤ length t.past → length (undone k t).future ≡ length t.future + k }
    ensures newest { (k : ℕ) (t : Timeline) (other : Proof) → 1 ≤ k → k ≤ length t.past → (undone k t).proof ≡ newest k t.past other }
    ensures again { (k : ℕ) (t : Timeline) → k ≤ length t.past → redone k (undone k t) ≡ t }
{}

/// Steps forward, one after the other, are `redone` of their number. As many as there are proofs of the future are accepted.
pub fn redos_lead_forward()
    ensures none { (p : Proof) (l : Lists) → redone 0 (timeline_of l p) ≡ timeline_of l p }
    ensures step { (k : ℕ) (t : Timeline) (p q : Proof) (old new : Lists) → k + 1 ≤ length t.future → timeline_of old p ≡ redone k t → IsRedone true old new p q → timeline_of new q ≡ redone (k + 1) t }
    ensures left { (k : ℕ) (t : Timeline) → k ≤ length t.future → length (redone k t).future + k ≡ length t.future }
{}
