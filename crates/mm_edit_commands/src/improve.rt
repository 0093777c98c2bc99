//! IMPROVE step and IMPROVE ALL.

ghost use Rattle.std.specs.Prelude.{◌≡◌, ◌<◌, OnErr, length};
ghost use Rattle.mm_scope.specs.Contents.{labels_of, stated_at};
ghost use Rattle.mm_stated.specs.declared.statement.Kind.TheVariants.{Theorem};
ghost use Rattle.mm_shell.specs.Sound.{IsProofOf};
ghost use Rattle.mm_tree.specs.Versions.{BeginsAlike, HasNoDrafts};
ghost use Rattle.mm_undo.specs.Histories.{KeepsSettled};
ghost use Rattle.mm_edit_commands.specs.Edits.{EditsTree};
ghost use Rattle.mm_edit_commands.specs.Improving.{depth_of, improve_all, improve_numbered, improve_step};

use crate::refusals::edit_refusal;
use crate::step_words::step_number;
use mm_base::Steps;
use mm_command::StepWord;
use mm_scope::{Database, StmtId};
use mm_shell::Refusal;
use mm_tree::Tree;
use mm_unify::Settings;
use std::alloc::Global;
use std::sync::ledger::Ledger;

/// The depth where none is given.
const FIRST_DEPTH: u32 = 0;

// The depth that is given.
fn depth_of(depth: Option<u32>) -> u32
    ensures { result ≡ depth_of depth }
{
    match depth {
        Some(depth) => depth,
        None => FIRST_DEPTH,
    }
}

// IMPROVE, for the step with a number.
fn improve_numbered<'a, L: Ledger>(
    alloc: Global,
    settings: &Settings,
    database: &Database,
    theorem: StmtId,
    tree: &mut Tree,
    step: u32,
    depth: Option<u32>,
    no_distinct: bool,
    steps: &mut Steps<L>,
) -> Result<(), Refusal<'a>>
    requires at { theorem.0 < length (labels_of database.now) }
    requires theorem { (stated_at database.now theorem.0).kind ≡ Theorem }
    requires valid { IsProofOf database.now theorem.0 tree.old.proof }
    requires settled { HasNoDrafts tree.old.versions }
    ensures edited { EditsTree (improve_numbered settings.now database.now theorem.0 tree.old.proof step depth no_distinct) tree.old.proof result tree.new.proof }
    ensures marks { KeepsSettled tree.old.versions tree.new.versions }
    ensures begun { BeginsAlike tree.old.versions tree.new.versions }
    ensures refused { OnErr result (HasNoDrafts tree.new.versions) }
{
    let depth = depth_of(depth);
    match mm_edit::improve(
        alloc,
        tree,
        database,
        theorem,
        settings,
        step,
        depth,
        no_distinct,
        steps,
    ) {
        Ok(()) => Ok(()),
        Err(fault) => Err(edit_refusal(alloc, b"", step, fault)),
    }
}

/// IMPROVE step, with /DEPTH and /NO_DISTINCT.
#[tactic(auto, using(crate::proofs::EditLemmas::settled_stay))]
pub fn improve_step<'a, L: Ledger>(
    alloc: Global,
    settings: &Settings,
    database: &Database,
    theorem: StmtId,
    tree: &mut Tree,
    step: StepWord,
    depth: Option<u32>,
    no_distinct: bool,
    steps: &mut Steps<L>,
) -> Result<(), Refusal<'a>>
    requires at { theorem.0 < length (labels_of database.now) }
    requires theorem { (stated_at database.now theorem.0).kind ≡ Theorem }
    requires valid { IsProofOf database.now theorem.0 tree.old.proof }
    requires settled { HasNoDrafts tree.old.versions }
    ensures edited { EditsTree (improve_step settings.now database.now theorem.0 tree.old.proof step depth no_distinct) tree.old.proof result tree.new.proof }
    ensures marks { KeepsSettled tree.old.versions tree.new.versions }
    ensures begun { BeginsAlike tree.old.versions tree.new.versions }
    ensures refused { OnErr result (HasNoDrafts tree.new.versions) }
{
    let step = step_number(alloc, tree, step)?;
    improve_numbered(
        alloc,
        settings,
        database,
        theorem,
        tree,
        step,
        depth,
        no_distinct,
        steps,
    )
}

/// IMPROVE ALL, with /DEPTH and /NO_DISTINCT.
pub fn improve_all<'a, L: Ledger>(
    alloc: Global,
    settings: &Settings,
    database: &Database,
    theorem: StmtId,
    tree: &mut Tree,
    depth: Option<u32>,
    no_distinct: bool,
    steps: &mut Steps<L>,
) -> Result<(), Refusal<'a>>
    requires at { theorem.0 < length (labels_of database.now) }
    requires theorem { (stated_at database.now theorem.0).kind ≡ Theorem }
    requires valid { IsProofOf database.now theorem.0 tree.old.proof }
    requires settled { HasNoDrafts tree.old.versions }
    ensures edited { EditsTree (improve_all settings.now database.now theorem.0 tree.old.proof depth no_distinct) tree.old.proof result tree.new.proof }
    ensures marks { KeepsSettled tree.old.versions tree.new.versions }
    ensures begun { BeginsAlike tree.old.versions tree.new.versions }
    ensures refused { OnErr result (HasNoDrafts tree.new.versions) }
{
    let depth = depth_of(depth);
    match mm_edit::improve_all(
        alloc,
        tree,
        database,
        theorem,
        settings,
        depth,
        no_distinct,
        steps,
    ) {
        Err(fault) => Err(edit_refusal(alloc, b"", 0, fault)),
        Ok(count) => {
            if count == 0 {
                Err(Refusal::NothingChanged)
            } else {
                Ok(())
            }
        }
    }
}
