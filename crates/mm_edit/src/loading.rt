//! A theorem's proof, loaded from its text.

ghost use Rattle.std.specs.Prelude.{◌≡◌, ◌+◌, ◌<◌, ◌≤◌, All, IfOk, MatchResult, length};
ghost use Rattle.std.specs.List.{list_all, AllByRecursion};
ghost use Rattle.mm_proof.specs.Compacting.{alone};
ghost use Rattle.mm_proof.specs.Decoding.{decoded};
ghost use Rattle.mm_proof.specs.Folding.{onward};
ghost use Rattle.mm_proof.specs.Forests.{trees_in};
ghost use Rattle.mm_proof.specs.Steps.{IsOwn};
ghost use Rattle.mm_edit.specs.Labelling.{label_tree_at};
ghost use Rattle.mm_scope.specs.Contents.{labels_of, stated_at};
ghost use Rattle.mm_stated.specs.declared.statement.Kind.TheVariants.{Theorem};
ghost use Rattle.mm_subst.specs.Statements.{statement_of};
ghost use Rattle.mm_plain.specs.Numbers.{IsOwnLabel};
ghost use Rattle.mm_plain.specs.Shape.{size_of, target_of};
ghost use Rattle.mm_plain.specs.Valid.{IsValid};
ghost use Rattle.mm_tree.specs.Versions.{HasNoDrafts};
ghost use Rattle.mm_edit.specs.Edited.{IsTried};
ghost use Rattle.mm_edit.specs.Keeping.{IsProofOf};
ghost use Rattle.mm_edit.specs.Loading.{AreLabelsOf, HasNone, HasSteps, IsCost, IsLoaded, IsMeasured, IsRead, all_visited, fault_of_labels, fault_of_text, fault_of_visit, loading, measured, stands_at, visited_at};
ghost use Rattle.mm_edit.specs.declared.loading.LoadFault.TheVariants.{Memory};

use crate::building::built;
use crate::edit_fault::EditFault;
use crate::label_list::label_list;
use crate::listing::{apply_to_tree, only};
use crate::unification::list_at;
use mm_base::Steps;
use mm_proof::{ProofFault, ProofStep, ProofSteps, decode, shape};
use mm_scope::{Database, Kind, StmtId, mandatory_variables_differ};
use mm_tree::{MOST_LEVELS, MOST_STEPS, OfLabelsFault, Tree};
use mm_unify::Settings;
use std::alloc::{AllocError, Global};
use std::sync::ledger::Ledger;
use thiserror::Error;

/// Why a theorem's proof is not loaded.
#[derive(Clone, Copy, Debug, PartialEq, Eq, Error)]
pub enum LoadFault {
    /// The text spells no steps, or they don't fold to one tree.
    #[error("the proof has no tree")]
    NoTree,
    /// The tree would have more than 1,000,000 steps.
    #[error("too many steps")]
    TooManySteps,
    /// The tree would have more than 2,000 levels.
    #[error("too deep")]
    TooDeep,
    /// A work variable with a number above 4,000,000,000 would be drawn.
    #[error("no work variable is left")]
    WorkSpent,
    /// A string would have more than 32,768 symbols.
    #[error("a string is too long")]
    TooLong,
    /// Memory ran out.
    #[error("out of memory")]
    Memory,
}

impl From<AllocError> for LoadFault {
    ghost from_gives = { λ _ e. e ≡ Memory };

    fn from(_e: AllocError) -> LoadFault {
        LoadFault::Memory
    }
}

impl From<OfLabelsFault> for LoadFault {
    ghost from_gives = { λ f e. e ≡ fault_of_labels f };

    fn from(fault: OfLabelsFault) -> LoadFault {
        match fault {
            OfLabelsFault::WorkSpent => LoadFault::WorkSpent,
            OfLabelsFault::Memory => LoadFault::Memory,
        }
    }
}

/// A fault of a proof's text, as one of loading.
fn fault_of_text(fault: ProofFault) -> LoadFault
    ensures { result ≡ fault_of_text fault }
{
    match fault {
        ProofFault::Memory => LoadFault::Memory,
        _ => LoadFault::NoTree,
    }
}

/// A fault of a visit, as one of loading.
fn fault_of_visit(fault: EditFault) -> LoadFault
    ensures { result ≡ fault_of_visit fault }
{
    match fault {
        EditFault::Memory => LoadFault::Memory,
        _ => LoadFault::TooLong,
    }
}

/// The steps of a theorem's proof.
fn spelled_steps(alloc: Global, db: &Database, at: StmtId) -> Result<ProofSteps, LoadFault>
    requires own { at.0 < length (labels_of db.now) }
    requires theorem { (stated_at db.now at.0).kind ≡ Theorem }
    ensures steps { HasSteps result (decoded db.now at.0) }
    ensures own { IfOk result (λ s. AllByRecursion (λ x. IsOwn db.now x.kind) s) }
{
    match decode(alloc, db, at) {
        Ok(steps) => Ok(steps),
        Err(fault) => Err(fault_of_text(fault)),
    }
}

/// Whether steps fold to a tree that is not too large. No copy is made.
fn measure(alloc: Global, db: &Database, at: StmtId, steps: &ProofSteps) -> Result<(), LoadFault>
    requires { AllByRecursion (λ x. IsOwn db.now x.kind) steps.now }
    ensures { IsMeasured result (onward (trees_in db.now steps.now) alone) }
{
    let Some(shape) = shape(alloc, db, at, steps)? else {
        return Err(LoadFault::NoTree);
    };
    if shape.steps > MOST_STEPS {
        return Err(LoadFault::TooManySteps);
    }
    if shape.height > MOST_LEVELS {
        return Err(LoadFault::TooDeep);
    }
    Ok(())
}

/// The steps of a theorem's proof, and the labels of its tree, unless there is none, or it is too large.
fn labels_at(
    alloc: Global,
    db: &Database,
    at: StmtId,
) -> Result<(ProofSteps, Vec<Option<u32>>), LoadFault>
    requires own { at.0 < length (labels_of db.now) }
    requires theorem { (stated_at db.now at.0).kind ≡ Theorem }
    ensures labels { MatchResult result (λ v. AreLabelsOf (label_tree_at db.now at.0) v.1.items) (λ f. HasNone (label_tree_at db.now at.0) f) }
    ensures own { IfOk result (λ v. All (IsOwnLabel db.now) v.1.items) }
    ensures steps { IfOk result (λ v. AllByRecursion (λ x. IsOwn db.now x.kind) v.0) }
{
    let spelled = spelled_steps(alloc, db, at)?;
    measure(alloc, db, at, &spelled)?;
    let labels = label_list(alloc, db, spelled.steps())?;
    Ok((spelled, labels))
}

/// Whether each label may stand in the proof of a theorem.
fn may_stand_all(db: &Database, at: StmtId, labels: &[Option<u32>]) -> bool
    requires own { at.0 < length (labels_of db.now) }
    requires labels { All (IsOwnLabel db.now) labels.now }
    ensures { result ≡ list_all (stands_at db.now at.0) labels.now }
{
    for label in labels {
        if !stands_at(db, at, *label) {
            return false;
        }
    }
    true
}

/// Whether a label may stand in the proof of a theorem.
#[tactic(auto, unfolding(mm_plain::specs::Premises::may_stand))]
fn stands_at(db: &Database, at: StmtId, label: Option<u32>) -> bool
    requires own { at.0 < length (labels_of db.now) }
    requires label { IsOwnLabel db.now label }
    ensures { result ≡ stands_at db.now at.0 label }
{
    let Some(id) = label else {
        return true;
    };
    match db.kind(StmtId(id)) {
        Kind::Float | Kind::Essential => db.is_active(StmtId(id), at),
        Kind::Axiom | Kind::Theorem => id < at.0,
    }
}

/// Visits a step: where it is pending and has an only unifier, this is applied to the whole tree.
fn visit(
    alloc: Global,
    tree: &mut Tree,
    db: &Database,
    at: StmtId,
    set: &Settings,
    step: u32,
) -> Result<(), EditFault>
    requires at { at.0 < length (labels_of db.now) }
    requires valid { IsProofOf db.now at.0 (target_of tree.old.proof.plain) tree.old.proof }
    requires exists { (1 ≤ step) × (step ≤ size_of tree.old.proof.plain) }
    ensures tried { IsTried (visited_at db.now set.now tree.old.proof step) result tree.new.proof }
{
    let _ = at;
    if !tree.is_pending(alloc, db, step)? {
        return Ok(());
    }
    let listing = list_at(alloc, tree, db, set, step)?;
    match only(&listing) {
        Ok(theta) => apply_to_tree(alloc, tree, db, theta),
        Err(_) => Ok(()),
    }
}

/// Visits each step once, in postorder.
fn visit_all(
    alloc: Global,
    tree: &mut Tree,
    db: &Database,
    at: StmtId,
    set: &Settings,
) -> Result<(), EditFault>
    requires at { at.0 < length (labels_of db.now) }
    requires valid { IsProofOf db.now at.0 (target_of tree.old.proof.plain) tree.old.proof }
    ensures tried { IsTried (all_visited db.now set.now tree.old.proof) result tree.new.proof }
{
    let last = tree.size();
    let mut step = 1;
    while step <= last {
        visit(alloc, tree, db, at, set, step)?;
        step += 1;
    }
    Ok(())
}

/// The tree that the labels of a theorem's proof begin, after each step of it is visited.
fn load_by_visits<L: Ledger>(
    alloc: Global,
    db: &Database,
    at: StmtId,
    set: &Settings,
    labels: &[Option<u32>],
    steps: &mut Steps<L>,
) -> Result<Tree, LoadFault>
    requires own { at.0 < length (labels_of db.now) }
    requires read { IsRead db.now at.0 labels.now }
    ensures loaded { IsLoaded (loading db.now at.0 set.now) result }
    ensures settled { IfOk result (λ t. HasNoDrafts t.versions) }
    ensures cost { steps.new ≤ steps.old + length labels.now }
{
    let mut tree = Tree::of_labels(alloc, db, at, labels, steps)?;
    match visit_all(alloc, &mut tree, db, at, set) {
        Ok(()) => {
            tree.settle();
            Ok(tree)
        }
        Err(fault) => Err(fault_of_visit(fault)),
    }
}

/// The same by the steps of the proof: where these have their own strings, no step is visited.
fn load_by_steps<L: Ledger>(
    alloc: Global,
    db: &Database,
    at: StmtId,
    set: &Settings,
    spelled: &[ProofStep],
    labels: &[Option<u32>],
    steps: &mut Steps<L>,
) -> Result<Tree, LoadFault>
    requires own { at.0 < length (labels_of db.now) }
    requires spelled { AllByRecursion (λ x. IsOwn db.now x.kind) spelled.now }
    requires labels { All (IsOwnLabel db.now) labels.now }
    requires read { IsRead db.now at.0 labels.now }
    ensures loaded { IsLoaded (loading db.now at.0 set.now) result }
    ensures settled { IfOk result (λ t. HasNoDrafts t.versions) }
    ensures cost { steps.new ≤ steps.old + length labels.now }
{
    mandatory_variables_differ(db.bytes());
    if let Some(tree) = built(alloc, db, at, set, spelled, labels, steps)? {
        return Ok(tree);
    }
    load_by_visits(alloc, db, at, set, labels, steps)
}

/// A theorem's proof as a tree, from its text in either form: the tree that its labels fold to, with fresh work variables for
/// the variables of what its steps name, in which each step is visited once, in postorder. A pending step with an only unifier
/// then has it applied.
///
/// # Errors
/// In this order: the text has no label tree; this has too many steps or too many levels; a number above 4,000,000,000 would be
/// drawn; a string would get too long. No node is counted for the first three.
pub fn load<L: Ledger>(
    alloc: Global,
    db: &Database,
    at: StmtId,
    set: &Settings,
    steps: &mut Steps<L>,
) -> Result<Tree, LoadFault>
    requires own { at.0 < length (labels_of db.now) }
    requires theorem { (stated_at db.now at.0).kind ≡ Theorem }
    ensures loaded { IsLoaded (loading db.now at.0 set.now) result }
    ensures settled { IfOk result (λ t. HasNoDrafts t.versions) }
    ensures valid { IfOk result (λ t. IsValid db.now at.0 (statement_of db.now at.0) t.proof) }
    ensures cost { IsCost (measured (label_tree_at db.now at.0)) steps.old steps.new }
{
    let (spelled, labels) = labels_at(alloc, db, at)?;
    if !may_stand_all(db, at, labels.as_slice()) {
        return Err(LoadFault::NoTree);
    }
    load_by_steps(
        alloc,
        db,
        at,
        set,
        spelled.steps(),
        labels.as_slice(),
        steps,
    )
}
