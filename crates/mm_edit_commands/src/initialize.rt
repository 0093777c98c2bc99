//! INITIALIZE STEP and INITIALIZE ALL.

ghost use Rattle.std.specs.Prelude.{◌≡◌, ◌<◌, OnErr, length};
ghost use Rattle.mm_scope.specs.Contents.{labels_of};
ghost use Rattle.mm_shell.specs.Sound.{IsProofOf};
ghost use Rattle.mm_tree.specs.Versions.{BeginsAlike, HasNoDrafts};
ghost use Rattle.mm_undo.specs.Histories.{KeepsSettled};
ghost use Rattle.mm_edit_commands.specs.Edits.{EditsTree, initialize_all, initialize_numbered, initialize_step};

use crate::refusals::edit_refusal;
use crate::step_words::step_number;
use mm_base::Steps;
use mm_command::StepWord;
use mm_scope::{Database, StmtId};
use mm_shell::Refusal;
use mm_tree::Tree;
use mm_unify::Settings;
use std::alloc::Global;
use std::sync::ledger::Ledger;

// INITIALIZE STEP, for the step with a number.
fn initialize_numbered<'a, L: Ledger>(
    alloc: Global,
    settings: &Settings,
    database: &Database,
    theorem: StmtId,
    tree: &mut Tree,
    step: u32,
    steps: &mut Steps<L>,
) -> Result<(), Refusal<'a>>
    requires at { theorem.0 < length (labels_of database.now) }
    requires valid { IsProofOf database.now theorem.0 tree.old.proof }
    requires settled { HasNoDrafts tree.old.versions }
    ensures edited { EditsTree (initialize_numbered database.now tree.old.proof step) tree.old.proof result tree.new.proof }
    ensures marks { KeepsSettled tree.old.versions tree.new.versions }
    ensures begun { BeginsAlike tree.old.versions tree.new.versions }
    ensures refused { OnErr result (HasNoDrafts tree.new.versions) }
{
    match mm_edit::initialize(alloc, tree, database, theorem, settings, step, steps) {
        Ok(()) => Ok(()),
        Err(fault) => Err(edit_refusal(alloc, b"", step, fault)),
    }
}

/// INITIALIZE STEP step.
#[tactic(auto, using(crate::proofs::EditLemmas::settled_stay))]
pub fn initialize_step<'a, L: Ledger>(
    alloc: Global,
    settings: &Settings,
    database: &Database,
    theorem: StmtId,
    tree: &mut Tree,
    step: StepWord,
    steps: &mut Steps<L>,
) -> Result<(), Refusal<'a>>
    requires at { theorem.0 < length (labels_of database.now) }
    requires valid { IsProofOf database.now theorem.0 tree.old.proof }
    requires settled { HasNoDrafts tree.old.versions }
    ensures edited { EditsTree (initialize_step database.now tree.old.proof step) tree.old.proof result tree.new.proof }
    ensures marks { KeepsSettled tree.old.versions tree.new.versions }
    ensures begun { BeginsAlike tree.old.versions tree.new.versions }
    ensures refused { OnErr result (HasNoDrafts tree.new.versions) }
{
    let step = step_number(alloc, tree, step)?;
    initialize_numbered(alloc, settings, database, theorem, tree, step, steps)
}

/// INITIALIZE ALL.
pub fn initialize_all<'a, L: Ledger>(
    alloc: Global,
    settings: &Settings,
    database: &Database,
    theorem: StmtId,
    tree: &mut Tree,
    steps: &mut Steps<L>,
) -> Result<(), Refusal<'a>>
    requires at { theorem.0 < length (labels_of database.now) }
    requires valid { IsProofOf database.now theorem.0 tree.old.proof }
    requires settled { HasNoDrafts tree.old.versions }
    ensures edited { EditsTree (initialize_all database.now tree.old.proof) tree.old.proof result tree.new.proof }
    ensures marks { KeepsSettled tree.old.versions tree.new.versions }
    ensures begun { BeginsAlike tree.old.versions tree.new.versions }
    ensures refused { OnErr result (HasNoDrafts tree.new.versions) }
{
    match mm_edit::initialize_all(alloc, tree, database, theorem, settings, steps) {
        Ok(()) => Ok(()),
        Err(fault) => Err(edit_refusal(alloc, b"", 0, fault)),
    }
}
