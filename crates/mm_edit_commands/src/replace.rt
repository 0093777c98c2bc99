//! REPLACE.

ghost use Rattle.std.specs.Prelude.{◌≡◌, ◌<◌, OnErr, length};
ghost use Rattle.mm_scope.specs.Contents.{labels_of};
ghost use Rattle.mm_edit.specs.Replacing.{replaced};
ghost use Rattle.mm_shell.specs.Answers.{or_refusal};
ghost use Rattle.mm_shell.specs.Sound.{IsProofOf};
ghost use Rattle.mm_tree.specs.Versions.{BeginsAlike, HasNoDrafts};
ghost use Rattle.mm_undo.specs.Histories.{KeepsSettled};
ghost use Rattle.mm_edit_commands.specs.Edits.{EditsTree, replace};
ghost use Rattle.mm_edit_commands.specs.Refusals.{edit_refusal};
ghost use Rattle.mm_edit_commands.specs.Steps.{step_number};

use crate::refusals::edit_refusal;
use crate::step_words::step_number;
use mm_base::Steps;
use mm_command::StepWord;
use mm_scope::{Database, StmtId};
use mm_shell::{Refusal, Word, find_statement, is_forbidden};
use mm_tree::Tree;
use mm_unify::Settings;
use std::alloc::Global;
use std::sync::ledger::Ledger;

/// REPLACE step label, with /OVERRIDE.
#[tactic(auto, using(crate::proofs::EditLemmas::settled_stay), unfolding(mm_shell::specs::Answers::unless, mm_shell::specs::Answers::given))]
pub fn replace<'a, L: Ledger>(
    alloc: Global,
    settings: &Settings,
    database: &Database,
    theorem: StmtId,
    tree: &mut Tree,
    step: StepWord,
    label: &'a [u8],
    guarded_too: bool,
    steps: &mut Steps<L>,
) -> Result<(), Refusal<'a>>
    requires at { theorem.0 < length (labels_of database.now) }
    requires valid { IsProofOf database.now theorem.0 tree.old.proof }
    requires settled { HasNoDrafts tree.old.versions }
    ensures edited { EditsTree (replace settings.now database.now theorem.0 tree.old.proof step label.now guarded_too) tree.old.proof result tree.new.proof }
    ensures marks { KeepsSettled tree.old.versions tree.new.versions }
    ensures begun { BeginsAlike tree.old.versions tree.new.versions }
    ensures refused { OnErr result (HasNoDrafts tree.new.versions) }
{
    let id = find_statement(database, label)?;
    if is_forbidden(database, guarded_too, id) {
        return Err(Refusal::Guarded(Word::new(label)));
    }
    replace_statement(
        alloc, settings, database, theorem, tree, step, id, label, steps,
    )
}

// The statement is found, and may be used.
fn replace_statement<'a, L: Ledger>(
    alloc: Global,
    settings: &Settings,
    database: &Database,
    theorem: StmtId,
    tree: &mut Tree,
    step: StepWord,
    id: StmtId,
    label: &'a [u8],
    steps: &mut Steps<L>,
) -> Result<(), Refusal<'a>>
    requires at { theorem.0 < length (labels_of database.now) }
    requires own { id.0 < length (labels_of database.now) }
    requires valid { IsProofOf database.now theorem.0 tree.old.proof }
    requires settled { HasNoDrafts tree.old.versions }
    ensures edited { EditsTree (or_refusal (replaced database.now theorem.0 settings.now tree.old.proof (step_number tree.old.proof.plain step) id.0) (edit_refusal label.now (step_number tree.old.proof.plain step))) tree.old.proof result tree.new.proof }
    ensures marks { KeepsSettled tree.old.versions tree.new.versions }
    ensures begun { BeginsAlike tree.old.versions tree.new.versions }
    ensures refused { OnErr result (HasNoDrafts tree.new.versions) }
{
    let step = step_number(alloc, tree, step)?;
    match mm_edit::replace(alloc, tree, database, theorem, settings, step, id, steps) {
        Ok(()) => Ok(()),
        Err(fault) => Err(edit_refusal(alloc, label, step, fault)),
    }
}
