//! What a statement depends on, and what depends on it: one pass over marks each, as each use is of an earlier statement.

ghost use Rattle.std.specs.Prelude.{◌≡◌, ◌≤◌, ◌<◌, ◌==◌, ◌||◌, ◌++◌, ◌∷◌, [], ℕ, false, IfOk, OnOk, cond, filter, get_or, length, map};
ghost use Rattle.std.specs.List.{list_any, range_with_len};
ghost use Rattle.mm_scope.specs.Contents.{labels_of, stated_at};
ghost use Rattle.mm_trace.specs.Marks.{AreMarks, PassesOn};
ghost use Rattle.mm_trace.specs.Uses.{axioms, depended_on, dependents, depends, is_axiom, users, uses};

use crate::applied::{applied, uses};
use mm_scope::{Database, Kind, StmtId};
use std::alloc::{AllocError, Global};

/// Marks a statement.
fn mark(marks: &mut Vec<bool>, id: u32)
    ensures count { length marks.new.items ≡ length marks.old.items }
    ensures each { (n : ℕ) → n < length marks.old.items → get_or marks.new.items n false ≡ (get_or marks.old.items n false || id == n) }
{
    if (id as usize) < marks.len() {
        marks[id as usize] = true;
    }
}

/// Marks statements.
pub(crate) fn mark_all(marks: &mut Vec<bool>, ids: &[u32])
    ensures count { length marks.new.items ≡ length marks.old.items }
    ensures each { (n : ℕ) → n < length marks.old.items → get_or marks.new.items n false ≡ (get_or marks.old.items n false || list_any (λ m. m == n) ids.now) }
{
    for id in ids {
        mark(marks, *id);
    }
}

/// Marks what a statement uses, if it is marked itself.
fn pass_on(
    alloc: Global,
    db: &Database,
    id: StmtId,
    marks: &mut Vec<bool>,
) -> Result<(), AllocError>
    requires own { id.0 < length (labels_of db.now) }
    requires count { length marks.old.items ≡ length (labels_of db.now) }
    ensures { OnOk result (PassesOn (uses db.now) id.0 marks.old.items marks.new.items) }
{
    if marks[id.0 as usize] {
        let used = applied(alloc, db, id)?;
        mark_all(marks, used.as_slice());
    }
    Ok(())
}

/// Marks on what a statement uses.
fn used_marks(alloc: Global, db: &Database, id: StmtId) -> Result<Vec<bool>, AllocError>
    requires own { id.0 < length (labels_of db.now) }
    ensures count { IfOk result (λ v. length v.items ≡ length (labels_of db.now)) }
    ensures each { IfOk result (λ v. (n : ℕ) → n < length v.items → get_or v.items n false ≡ uses db.now id.0 n) }
{
    let mut marks = vec![in alloc; false; db.count() as usize]?;
    let used = applied(alloc, db, id)?;
    mark_all(&mut marks, used.as_slice());
    Ok(marks)
}

/// Marks on what a statement depends on: downwards from it, each marked statement passes its mark on to what it uses. The
/// proofs of those alone are read.
fn depended_marks(alloc: Global, db: &Database, id: StmtId) -> Result<Vec<bool>, AllocError>
    requires own { id.0 < length (labels_of db.now) }
    ensures { IfOk result (λ v. AreMarks (depends db.now id.0) (length (labels_of db.now)) v.items) }
{
    let mut marks = used_marks(alloc, db, id)?;
    let mut left = id.0;
    while left > 0 {
        left -= 1;
        pass_on(alloc, db, StmtId(left), &mut marks)?;
    }
    Ok(marks)
}

/// Appends a statement where that is wanted.
fn push_where(ids: &mut Vec<StmtId>, wanted: bool, id: u32) -> Result<(), AllocError>
    ensures { OnOk result (map (λ i. i.0) ids.new.items ≡ map (λ i. i.0) ids.old.items ++ cond wanted (id ∷ []) []) }
{
    if wanted {
        ids.push(StmtId(id))?;
    }
    Ok(())
}

/// Whether a statement is marked.
pub(crate) fn is_marked(marks: &[bool], id: u32) -> bool
    ensures { result ≡ get_or marks.now id false }
{
    match marks.get(id as usize) {
        Some(mark) => *mark,
        None => false,
    }
}

/// The marked ones among the first statements, in order.
#[tactic(auto, using(crate::proofs::Listing::one_more))]
fn marked(alloc: Global, marks: &[bool], count: u32) -> Result<Vec<StmtId>, AllocError>
    ensures { IfOk result (λ v. map (λ i. i.0) v.items ≡ filter (λ n. get_or marks.now n false) (range_with_len 0 count)) }
{
    let mut ids = Vec::new(alloc);
    for id in 0..count {
        push_where(&mut ids, is_marked(marks, id), id)?;
    }
    Ok(ids)
}

/// The statements on which one depends, in order.
#[tactic(auto, using(crate::proofs::Listing::marked_are), unfolding(crate::specs::Uses::depended_on))]
pub fn depended_on(alloc: Global, db: &Database, id: StmtId) -> Result<Vec<StmtId>, AllocError>
    requires { id.0 < length (labels_of db.now) }
    ensures { IfOk result (λ v. map (λ i. i.0) v.items ≡ depended_on db.now id.0) }
{
    let marks = depended_marks(alloc, db, id)?;
    marked(alloc, marks.as_slice(), db.count())
}

/// Whether a statement is an axiom.
fn is_axiom(db: &Database, id: StmtId) -> bool
    requires { id.0 < length (labels_of db.now) }
    ensures { result ≡ is_axiom db.now id.0 }
{
    match db.kind(id) {
        Kind::Axiom => true,
        _ => false,
    }
}

/// The axioms on which a statement depends, in order.
#[tactic(auto, using(crate::proofs::Listing::one_more), unfolding(crate::specs::Uses::axioms))]
pub fn axioms(alloc: Global, db: &Database, id: StmtId) -> Result<Vec<StmtId>, AllocError>
    requires { id.0 < length (labels_of db.now) }
    ensures { IfOk result (λ v. map (λ i. i.0) v.items ≡ axioms db.now id.0) }
{
    let marks = depended_marks(alloc, db, id)?;
    let mut ids = Vec::new(alloc);
    for n in 0..db.count() {
        let wanted = is_marked(marks.as_slice(), n) && is_axiom(db, StmtId(n));
        push_where(&mut ids, wanted, n)?;
    }
    Ok(ids)
}

/// The statements that use one, in order.
#[tactic(auto, using(crate::proofs::Listing::one_more), unfolding(crate::specs::Uses::users))]
pub fn users(alloc: Global, db: &Database, on: StmtId) -> Result<Vec<StmtId>, AllocError>
    ensures { IfOk result (λ v. map (λ i. i.0) v.items ≡ users db.now on.0) }
{
    let mut ids = Vec::new(alloc);
    for id in 0..db.count() {
        let wanted = uses(alloc, db, StmtId(id), on)?;
        push_where(&mut ids, wanted, id)?;
    }
    Ok(ids)
}

/// Whether one of these statements is a given one, or marked.
pub(crate) fn some_rests(used: &[u32], marks: &[bool], on: StmtId) -> bool
    ensures { result ≡ list_any (λ m. m == on.0 || get_or marks.now m false) used.now }
{
    used.iter().any(|m| *m == on.0 || is_marked(marks, *m))
}

/// Marks on what depends on a statement: upwards, each is marked that uses it or a marked one.
fn dependent_marks(alloc: Global, db: &Database, on: StmtId) -> Result<Vec<bool>, AllocError>
    ensures { IfOk result (λ v. AreMarks (λ n. depends db.now n on.0) (length (labels_of db.now)) v.items) }
{
    let mut marks = Vec::new(alloc);
    for id in 0..db.count() {
        let used = applied(alloc, db, StmtId(id))?;
        let rests = some_rests(used.as_slice(), marks.as_slice(), on);
        marks.push(rests)?;
    }
    Ok(marks)
}

/// The statements that depend on one, in order.
#[tactic(auto, using(crate::proofs::Listing::marked_are), unfolding(crate::specs::Uses::dependents))]
pub fn dependents(alloc: Global, db: &Database, on: StmtId) -> Result<Vec<StmtId>, AllocError>
    ensures { IfOk result (λ v. map (λ i. i.0) v.items ≡ dependents db.now on.0) }
{
    let marks = dependent_marks(alloc, db, on)?;
    marked(alloc, marks.as_slice(), db.count())
}
