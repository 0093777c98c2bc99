//! Making the target and the source of a pending step the same.

ghost use Rattle.std.specs.Prelude.{◌≡◌, ◌<◌, ◌≤◌, ◌^◌, IfErr, IfOk, IfSome, None, Ok, OnErr, length};
ghost use Rattle.mm_base.specs.Refusals.{given};
ghost use Rattle.mm_scope.specs.Contents.{labels_of};
ghost use Rattle.mm_subst.specs.Substitutions.{Pairs};
ghost use Rattle.mm_plain.specs.Binding.{HasWorkKeys};
ghost use Rattle.mm_plain.specs.Lengths.{first_long};
ghost use Rattle.mm_plain.specs.Numbers.{HasOwnLabels};
ghost use Rattle.mm_plain.specs.Shape.{size_of, step_at, target_of};
ghost use Rattle.mm_tree.specs.Versions.{BeginsAlike, HasNoDrafts};
ghost use Rattle.mm_edit.specs.Applying.{applying};
ghost use Rattle.mm_edit.specs.Edited.{IsListing, IsUnified, KeepsSettled, Shows, answer_in, listing_told};
ghost use Rattle.mm_edit.specs.Keeping.{IsProofOf};
ghost use Rattle.mm_edit.specs.Listed.{chosen, listed_at};
ghost use Rattle.mm_edit.specs.Unifying.{listing_shown, shows_listing, step_unified};
ghost use Rattle.mm_edit.specs.declared.edit_fault.EditFault.TheVariants.{Memory};

use crate::checks::{has_step, is_unknown};
use crate::edit_fault::EditFault;
use crate::listing::{apply_to_tree, chosen, list};
use mm_base::Steps;
use mm_scope::{Database, StmtId};
use mm_subst::WStr;
use mm_tree::Tree;
use mm_unify::{Listing, Settings};
use std::alloc::{AllocError, Global};
use std::sync::ledger::Ledger;
use thiserror::Error;

/// Why a step is not unified; and the unifiers that were found, where it has several, fewer than were chosen from, or the
/// search did not end.
#[derive(Debug, Drop, Error)]
#[error("{fault}")]
pub struct UnifyFault {
    pub fault: EditFault,
    pub listing: Option<Listing>,
}

impl From<EditFault> for UnifyFault {
    ghost from_gives = { λ f u. (u.fault ≡ f) × (u.listing ≡ None) };

    fn from(fault: EditFault) -> UnifyFault {
        UnifyFault {
            fault,
            listing: None,
        }
    }
}

impl From<AllocError> for UnifyFault {
    ghost from_gives = { λ _ u. (u.fault ≡ Memory) × (u.listing ≡ None) };

    fn from(_e: AllocError) -> UnifyFault {
        UnifyFault {
            fault: EditFault::Memory,
            listing: None,
        }
    }
}

/// Whether a refusal shows the unifiers that were found.
fn shows_listing(fault: EditFault) -> bool
    ensures { result ≡ shows_listing fault }
{
    matches!(
        fault,
        EditFault::TrialsSpent
            | EditFault::LengthSpent
            | EditFault::Ambiguous(_)
            | EditFault::NoSuchChoice(_)
    )
}

/// A refusal, with the listing where it shows one.
fn with_listing(fault: EditFault, listing: Listing) -> UnifyFault
    ensures fault { result.fault ≡ fault }
    ensures listing { result.listing ≡ listing_told fault listing }
{
    let listing = if shows_listing(fault) {
        Some(listing)
    } else {
        None
    };
    UnifyFault { fault, listing }
}

/// The unifiers of the target and the source of a known step.
pub fn list_at(
    alloc: Global,
    tree: &Tree,
    db: &Database,
    set: &Settings,
    step: u32,
) -> Result<Listing, AllocError>
    requires exists { (1 ≤ step) × (step ≤ size_of tree.now.proof.plain) }
    requires own { HasOwnLabels db.now tree.now.proof.plain }
    ensures listing { IfOk result (λ t. IsListing t (listed_at db.now set.now (step_at tree.now.proof.plain step))) }
    ensures few { IfOk result (λ t. length t.found.items < 2 ^ 32) }
{
    let target = tree.target(alloc, step)?;
    match tree.source(alloc, db, step)? {
        Some(source) => list(alloc, db, set, &target, &source),
        None => list(alloc, db, set, &target, &WStr::new(alloc, &[])?),
    }
}

/// Applies the unifier of a listing that is chosen.
#[tactic(auto, unfolding(mm_base::specs::Refusals::given))]
fn apply_chosen(
    alloc: Global,
    tree: &mut Tree,
    db: &Database,
    listing: Listing,
    choice: Option<u32>,
) -> Result<(), UnifyFault>
    requires few { length listing.found.items < 2 ^ 32 }
    requires counted { IfSome choice (λ n. 1 ≤ n) }
    requires keys { (u : Pairs) → chosen choice (answer_in listing) ≡ Ok u → HasWorkKeys u }
    requires own { HasOwnLabels db.now tree.old.proof.plain }
    requires short { first_long db.now tree.old.proof.plain ≡ None }
    ensures done { IsUnified (given (chosen choice (answer_in listing)) (λ theta. applying db.now theta tree.old.proof)) result tree.old.proof tree.new.proof }
    ensures shown { IfErr result (λ u. u.listing ≡ listing_told u.fault listing) }
    ensures err { OnErr result (tree.new ≡ tree.old) }
    ensures marks { KeepsSettled tree.old.versions tree.new.versions }
    ensures begun { BeginsAlike tree.old.versions tree.new.versions }
{
    match chosen(&listing, choice) {
        Ok(theta) => {
            apply_to_tree(alloc, tree, db, theta)?;
            Ok(())
        }
        Err(fault) => Err(with_listing(fault, listing)),
    }
}

/// Applies a unifier of the target and the source of a pending step, as a draft: the one with a number, counted from 1, or
/// the only one. Where that is refused the tree is as before.
#[tactic(auto, unfolding(mm_base::specs::Refusals::unless, crate::specs::Unifying::step_unified))]
pub fn unify_step<L: Ledger>(
    alloc: Global,
    tree: &mut Tree,
    db: &Database,
    at: StmtId,
    set: &Settings,
    step: u32,
    choice: Option<u32>,
    steps: &mut Steps<L>,
) -> Result<(), UnifyFault>
    requires at { at.0 < length (labels_of db.now) }
    requires valid { IsProofOf db.now at.0 (target_of tree.old.proof.plain) tree.old.proof }
    requires counted { IfSome choice (λ n. 1 ≤ n) }
    ensures done { IsUnified (step_unified db.now set.now tree.old.proof step choice) result tree.old.proof tree.new.proof }
    ensures listing { IfErr result (λ u. Shows u.listing (listing_shown db.now set.now (step_at tree.old.proof.plain step) u.fault)) }
    ensures marks { KeepsSettled tree.old.versions tree.new.versions }
    ensures begun { HasNoDrafts tree.old.versions → BeginsAlike tree.old.versions tree.new.versions }
    ensures drafts { HasNoDrafts tree.old.versions → OnErr result (HasNoDrafts tree.new.versions) }
    ensures cost { steps.new ≡ steps.old }
{
    let _ = at;
    let _ = steps;
    if !has_step(tree, step) {
        return Err(EditFault::NoSuchStep.into());
    }
    if is_unknown(tree, step) {
        return Err(EditFault::StepUnknown.into());
    }
    if !tree.is_pending(alloc, db, step)? {
        return Err(EditFault::NotPending.into());
    }
    let listing = list_at(alloc, tree, db, set, step)?;
    apply_chosen(alloc, tree, db, listing, choice)
}
