//! The unifiers of a step, and the one that an edit applies.

ghost use Rattle.std.specs.Prelude.{◌≡◌, ◌<◌, ◌^◌, ◌≤◌, IfErr, IfOk, IfSome, MatchResult, None, Ok, OnErr, false, length};
ghost use Rattle.mm_subst.specs.Substitutions.{Pairs};
ghost use Rattle.mm_plain.specs.Binding.{HasWorkKeys};
ghost use Rattle.mm_plain.specs.Lengths.{first_long};
ghost use Rattle.mm_plain.specs.Numbers.{HasOwnLabels};
ghost use Rattle.mm_tree.specs.Versions.{BeginsAlike, KeepsMarks};
ghost use Rattle.mm_edit.specs.Applying.{applying, applying_only};
ghost use Rattle.mm_edit.specs.Edited.{IsDone, IsListing, answer_in};
ghost use Rattle.mm_edit.specs.Listed.{chosen, has_none, listed, only_unifier};
ghost use Rattle.mm_edit.specs.Unifying.{shows_listing};

use crate::edit_fault::EditFault;
use mm_scope::Database;
use mm_subst::{Memory, Subst, WStr};
use mm_tree::Tree;
use mm_unify::{Ended, Listing, Rule, Settings, unifiers};
use std::alloc::Global;

/// The unifiers of two strings, listed within so many trials; there are no more of them.
fn list_within(
    alloc: Global,
    db: &Database,
    a: &WStr,
    b: &WStr,
    rule: Rule,
    trials: u32,
) -> Result<Listing, Memory>
    ensures listing { IfOk result (λ t. IsListing t (listed db.now (record { rule = rule; trials = trials }) a.now b.now)) }
    ensures few { IfOk result (λ t. length t.found.items < 2 ^ 32) }
{
    unifiers(alloc, db, a, b, rule, Some(trials))
}

/// The unifiers of two strings, listed as the settings say.
pub fn list(
    alloc: Global,
    db: &Database,
    set: &Settings,
    a: &WStr,
    b: &WStr,
) -> Result<Listing, Memory>
    ensures listing { IfOk result (λ t. IsListing t (listed db.now set.now a.now b.now)) }
    ensures few { IfOk result (λ t. length t.found.items < 2 ^ 32) }
{
    list_within(alloc, db, a, b, set.rule, set.trials)
}

/// The one unifier of a whole listing, or why there is none such.
pub fn only(listing: &Listing) -> Result<&Subst, EditFault>
    requires { length listing.now.found.items < 2 ^ 32 }
    ensures { MatchResult result (λ u. only_unifier (answer_in listing.now) ≡ Ok u.now) (λ f. only_unifier (answer_in listing.now) ≡ Err f) }
{
    match listing.ended {
        Ended::Trials => Err(EditFault::TrialsSpent),
        Ended::Length => Err(EditFault::LengthSpent),
        Ended::Whole => match listing.found.as_slice() {
            [] => Err(EditFault::NoUnifier),
            [only] => Ok(only),
            several => Err(EditFault::Ambiguous(several.len() as u32)),
        },
    }
}

/// Whether there surely is no unifier.
pub fn has_none(listing: &Listing) -> bool
    ensures { result ≡ has_none (answer_in listing.now) }
{
    match listing.ended {
        Ended::Whole => listing.found.is_empty(),
        Ended::Trials | Ended::Length => false,
    }
}

/// The unifier with a number, counted from 1; or the only one, where no number is given.
#[tactic(auto, unfolding(mm_base::specs::Refusals::unless))]
pub fn chosen(listing: &Listing, choice: Option<u32>) -> Result<&Subst, EditFault>
    requires few { length listing.now.found.items < 2 ^ 32 }
    requires counted { IfSome choice (λ n. 1 ≤ n) }
    ensures { MatchResult result (λ u. chosen choice (answer_in listing.now) ≡ Ok u.now) (λ f. chosen choice (answer_in listing.now) ≡ Err f) }
{
    let Some(number) = choice else {
        return only(listing);
    };
    if has_none(listing) {
        return Err(EditFault::NoUnifier);
    }
    match listing.found.get((number - 1) as usize) {
        Some(unifier) => Ok(unifier),
        None => Err(EditFault::NoSuchChoice(listing.found.len() as u32)),
    }
}

/// Applies a substitution to a proof.
pub fn apply_to_tree(
    alloc: Global,
    tree: &mut Tree,
    db: &Database,
    theta: &Subst,
) -> Result<(), EditFault>
    requires keys { HasWorkKeys theta.now }
    requires own { HasOwnLabels db.now tree.old.proof.plain }
    requires short { first_long db.now tree.old.proof.plain ≡ None }
    ensures done { IsDone (applying db.now theta.now tree.old.proof) result tree.old.proof tree.new.proof }
    ensures err { OnErr result (tree.new ≡ tree.old) }
    ensures marks { KeepsMarks tree.old.versions tree.new.versions }
    ensures begun { BeginsAlike tree.old.versions tree.new.versions }
    ensures hidden { IfErr result (λ f. shows_listing f ≡ false) }
{
    tree.bind(alloc, db, theta)?;
    Ok(())
}

/// Applies the only unifier of a listing to a proof, where there is one.
pub fn apply_only(
    alloc: Global,
    tree: &mut Tree,
    db: &Database,
    listing: &Listing,
) -> Result<(), EditFault>
    requires few { length listing.now.found.items < 2 ^ 32 }
    requires keys { (u : Pairs) → only_unifier (answer_in listing.now) ≡ Ok u → HasWorkKeys u }
    requires own { HasOwnLabels db.now tree.old.proof.plain }
    requires short { first_long db.now tree.old.proof.plain ≡ None }
    ensures done { IsDone (applying_only db.now (only_unifier (answer_in listing.now)) tree.old.proof) result tree.old.proof tree.new.proof }
    ensures marks { KeepsMarks tree.old.versions tree.new.versions }
    ensures begun { BeginsAlike tree.old.versions tree.new.versions }
{
    match only(listing) {
        Ok(theta) => apply_to_tree(alloc, tree, db, theta),
        Err(_) => Ok(()),
    }
}
