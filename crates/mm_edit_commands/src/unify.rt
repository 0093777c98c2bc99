//! UNIFY STEP and UNIFY ALL.

ghost use Rattle.std.specs.Prelude.{◌≡◌, ◌<◌, ◌≤◌, ℕ, List, IfSome, OnErr, length};
ghost use Rattle.mm_scope.specs.Contents.{labels_of};
ghost use Rattle.mm_edit.specs.Unifying.{step_unified};
ghost use Rattle.mm_unify.specs.declared.listing.Settings.{Settings};
ghost use Rattle.mm_plain.specs.Shape.{Proof};
ghost use Rattle.mm_shell.specs.Sound.{IsProofOf};
ghost use Rattle.mm_tree.specs.Versions.{BeginsAlike, HasNoDrafts};
ghost use Rattle.mm_undo.specs.Histories.{KeepsSettled};
ghost use Rattle.mm_edit_commands.specs.Edits.{EditsTree, unify_all, unify_numbered, unify_step};

use crate::refusals::{edit_refusal, unify_refusal};
use crate::step_words::step_number;
use mm_base::Steps;
use mm_command::StepWord;
use mm_scope::{Database, StmtId};
use mm_shell::Refusal;
use mm_tree::Tree;
use mm_unify::Settings;
use std::alloc::Global;
use std::sync::ledger::Ledger;

// A choice as it is counted, from 1; the prompt knows no choice 0.
fn counted_choice(choice: Option<u32>) -> Option<u32>
    ensures counted { IfSome result (λ n. 1 ≤ n) }
    ensures same { (bytes : List ℕ) (set : Settings) (p : Proof) (k : ℕ) → step_unified bytes set p k result ≡ step_unified bytes set p k choice }
{
    match choice {
        Some(0) => Some(1),
        counted => counted,
    }
}

// UNIFY STEP, for the step with a number.
fn unify_numbered<'a, L: Ledger>(
    alloc: Global,
    settings: &Settings,
    database: &Database,
    theorem: StmtId,
    tree: &mut Tree,
    step: u32,
    choice: Option<u32>,
    steps: &mut Steps<L>,
) -> Result<(), Refusal<'a>>
    requires at { theorem.0 < length (labels_of database.now) }
    requires valid { IsProofOf database.now theorem.0 tree.old.proof }
    requires settled { HasNoDrafts tree.old.versions }
    ensures edited { EditsTree (unify_numbered settings.now database.now tree.old.proof step choice) tree.old.proof result tree.new.proof }
    ensures marks { KeepsSettled tree.old.versions tree.new.versions }
    ensures begun { BeginsAlike tree.old.versions tree.new.versions }
    ensures refused { OnErr result (HasNoDrafts tree.new.versions) }
{
    let choice = counted_choice(choice);
    match mm_edit::unify_step(
        alloc, tree, database, theorem, settings, step, choice, steps,
    ) {
        Ok(()) => Ok(()),
        Err(refused) => match unify_refusal(alloc, database, step, refused) {
            Ok(refusal) => Err(refusal),
            Err(memory) => Err(memory.into()),
        },
    }
}

/// UNIFY STEP step, with /CHOICE n.
#[tactic(auto, using(crate::proofs::EditLemmas::settled_stay))]
pub fn unify_step<'a, L: Ledger>(
    alloc: Global,
    settings: &Settings,
    database: &Database,
    theorem: StmtId,
    tree: &mut Tree,
    step: StepWord,
    choice: Option<u32>,
    steps: &mut Steps<L>,
) -> Result<(), Refusal<'a>>
    requires at { theorem.0 < length (labels_of database.now) }
    requires valid { IsProofOf database.now theorem.0 tree.old.proof }
    requires settled { HasNoDrafts tree.old.versions }
    ensures edited { EditsTree (unify_step settings.now database.now tree.old.proof step choice) tree.old.proof result tree.new.proof }
    ensures marks { KeepsSettled tree.old.versions tree.new.versions }
    ensures begun { BeginsAlike tree.old.versions tree.new.versions }
    ensures refused { OnErr result (HasNoDrafts tree.new.versions) }
{
    let step = step_number(alloc, tree, step)?;
    unify_numbered(
        alloc, settings, database, theorem, tree, step, choice, steps,
    )
}

/// UNIFY ALL.
pub fn unify_all<'a, L: Ledger>(
    alloc: Global,
    settings: &Settings,
    database: &Database,
    theorem: StmtId,
    tree: &mut Tree,
    steps: &mut Steps<L>,
) -> Result<(), Refusal<'a>>
    requires at { theorem.0 < length (labels_of database.now) }
    requires valid { IsProofOf database.now theorem.0 tree.old.proof }
    requires settled { HasNoDrafts tree.old.versions }
    ensures edited { EditsTree (unify_all settings.now database.now tree.old.proof) tree.old.proof result tree.new.proof }
    ensures marks { KeepsSettled tree.old.versions tree.new.versions }
    ensures begun { BeginsAlike tree.old.versions tree.new.versions }
    ensures refused { OnErr result (HasNoDrafts tree.new.versions) }
{
    match mm_edit::unify_all(alloc, tree, database, theorem, settings, steps) {
        Ok(()) => Ok(()),
        Err(fault) => Err(edit_refusal(alloc, b"", 0, fault)),
    }
}
