//! Edits of the open proof: one arm for each, and one ending for all.

ghost use Rattle.std.specs.Prelude.{◌≡◌, ◌<◌, ◌≤◌, IfOk, OnErr, length, true};
ghost use Rattle.mm_command.specs.Meanings.{meaning_of};
ghost use Rattle.mm_edit.specs.Counts.{pending_count};
ghost use Rattle.mm_plain.specs.Numbers.{HasOwnLabels};
ghost use Rattle.mm_plain.specs.Shape.{size_of};
ghost use Rattle.mm_scope.specs.Contents.{labels_of, stated_at};
ghost use Rattle.mm_stated.specs.declared.statement.Kind.TheVariants.{Theorem};
ghost use Rattle.mm_shell.specs.Sound.{IsOpenIn, IsProofOf, IsSound};
ghost use Rattle.mm_tree.specs.Versions.{BeginsAlike, HasNoDrafts};
ghost use Rattle.mm_undo.specs.Histories.{IsHistoryOf, IsMarkOfBeginning, KeepsSettled};
ghost use Rattle.mm_edit_commands.specs.Edits.{EditsProof, EditsState, EditsTree, edit_answer, edit_in, edit_of, is_built};
ghost use Rattle.mm_edit_commands.specs.Ending.{EndsEdit};

use crate::assign::assign;
use crate::delete::{delete_all, delete_floats, delete_step};
use crate::improve::{improve_all, improve_step};
use crate::initialize::{initialize_all, initialize_step};
use crate::let_text::{let_step, let_variable};
use crate::replace::replace;
use crate::unify::{unify_all, unify_step};
use mm_base::{Memory, Steps};
use mm_command::Command;
use mm_scope::{Database, StmtId};
use mm_shell::{OpenProof, Refusal, State};
use mm_tree::{Mark, Tree};
use mm_undo::History;
use mm_unify::Settings;
use std::alloc::Global;
use std::sync::ledger::Ledger;

/// How many steps a proof has, and how many of them are unknown and pending.
#[derive(Clone, Copy, Debug, PartialEq, Eq)]
pub struct Counts {
    pub steps: u32,
    pub unknown: u32,
    pub pending: u32,
}

/// Runs an edit of the open proof, and counts its steps. The nodes that it makes are counted in `steps`. Where it is
/// refused, nothing is changed.
#[tactic(auto, unfolding(crate::specs::Edits::edit_answer, mm_shell::specs::Answers::unless, mm_shell::specs::Answers::given))]
pub fn edit<'a, L: Ledger>(
    alloc: Global,
    state: &mut State,
    command: Command<'a>,
    steps: &mut Steps<L>,
) -> Result<Counts, Refusal<'a>>
    requires { IsSound state.old }
    ensures { EditsState (edit_answer (meaning_of command.entry) state.old) state.old result state.new }
{
    if !is_built(command) {
        return Err(Refusal::NotBuilt);
    }
    let Some(database) = &state.database else {
        return Err(Refusal::NoProofOpen);
    };
    let Some(proof) = &mut state.open_proof else {
        return Err(Refusal::NoProofOpen);
    };
    edit_proof(alloc, &state.settings, database, proof, command, steps)
}

// Whether an edit is built.
fn is_built(command: Command<'_>) -> bool
    ensures { result ≡ is_built (meaning_of command.entry) }
{
    match command {
        Command::Assign { .. }
        | Command::Replace { .. }
        | Command::LetVariable { .. }
        | Command::LetStep { .. }
        | Command::UnifyStep { .. }
        | Command::UnifyAll
        | Command::InitializeStep { .. }
        | Command::InitializeAll
        | Command::DeleteStep { .. }
        | Command::DeleteAll
        | Command::DeleteFloats
        | Command::Improve { .. }
        | Command::ImproveAll { .. } => true,
        _ => false,
    }
}

// Edits the open proof. The edit makes drafts in the tree, and is then kept or taken back.
fn edit_proof<'a, L: Ledger>(
    alloc: Global,
    settings: &Settings,
    database: &Database,
    proof: &mut OpenProof,
    command: Command<'a>,
    steps: &mut Steps<L>,
) -> Result<Counts, Refusal<'a>>
    requires built { is_built (meaning_of command) ≡ true }
    requires held { IsOpenIn database.now proof.old }
    ensures { EditsProof (edit_in (meaning_of command.entry) settings.now database.now proof.old) proof.old result proof.new }
{
    let before = proof.tree.mark();
    match edit_tree(
        alloc,
        settings,
        database,
        proof.theorem,
        &mut proof.tree,
        command,
        steps,
    ) {
        Err(refusal) => Err(refusal),
        Ok(()) => match end_edit(alloc, database, &mut proof.tree, &mut proof.history, before) {
            Err(_) => Err(Refusal::OutOfMemory),
            Ok(counts) => {
                proof.changed = true;
                Ok(counts)
            }
        },
    }
}

// The ending of every edit: counts the steps, and keeps the proof before the edit, which the mark names. Where there is no
// memory to count, the edit is taken back.
fn end_edit(
    alloc: Global,
    database: &Database,
    tree: &mut Tree,
    history: &mut History,
    before: Mark,
) -> Result<Counts, Memory>
    requires own { HasOwnLabels database.now tree.old.proof.plain }
    requires few { size_of tree.old.proof.plain ≤ 1000000 }
    requires held { IsHistoryOf tree.old.versions history.old }
    requires begun { IsMarkOfBeginning tree.old.versions before }
    ensures { EndsEdit database.now before tree.old history.old result tree.new history.new }
{
    match pending_count(alloc, database, tree) {
        Err(memory) => {
            tree.back(before);
            Err(memory)
        }
        Ok(pending) => {
            history.accept(tree, before);
            Ok(Counts {
                steps: tree.size(),
                unknown: tree.unknown_steps(),
                pending,
            })
        }
    }
}

// How many steps are pending.
fn pending_count(alloc: Global, database: &Database, tree: &Tree) -> Result<u32, Memory>
    requires own { HasOwnLabels database.now tree.now.proof.plain }
    requires few { size_of tree.now.proof.plain ≤ 1000000 }
    ensures { IfOk result (λ count. count ≡ pending_count database.now tree.now.proof.plain) }
{
    let pending = tree.pending_steps(alloc, database)?;
    Ok(pending.len() as u32)
}

// Edits a tree: one arm for each edit. It makes drafts, and each settled version stays.
#[tactic(auto, unfolding(crate::specs::Edits::edit_of))]
fn edit_tree<'a, L: Ledger>(
    alloc: Global,
    settings: &Settings,
    database: &Database,
    theorem: StmtId,
    tree: &mut Tree,
    command: Command<'a>,
    steps: &mut Steps<L>,
) -> Result<(), Refusal<'a>>
    requires at { theorem.0 < length (labels_of database.now) }
    requires theorem { (stated_at database.now theorem.0).kind ≡ Theorem }
    requires valid { IsProofOf database.now theorem.0 tree.old.proof }
    requires settled { HasNoDrafts tree.old.versions }
    ensures edited { EditsTree (edit_of (meaning_of command.entry) settings.now database.now theorem.0 tree.old.proof) tree.old.proof result tree.new.proof }
    ensures marks { KeepsSettled tree.old.versions tree.new.versions }
    ensures begun { BeginsAlike tree.old.versions tree.new.versions }
    ensures refused { OnErr result (HasNoDrafts tree.new.versions) }
{
    match command {
        Command::Assign {
            step,
            label,
            guarded_too,
        } => assign(
            alloc,
            settings,
            database,
            theorem,
            tree,
            step,
            label,
            guarded_too,
            steps,
        ),
        Command::Replace {
            step,
            label,
            guarded_too,
        } => replace(
            alloc,
            settings,
            database,
            theorem,
            tree,
            step,
            label,
            guarded_too,
            steps,
        ),
        Command::LetVariable { number, text, word } => let_variable(
            alloc, settings, database, theorem, tree, number, text, word, steps,
        ),
        Command::LetStep { step, text, word } => let_step(
            alloc, settings, database, theorem, tree, step, text, word, steps,
        ),
        Command::UnifyStep { step, choice } => unify_step(
            alloc, settings, database, theorem, tree, step, choice, steps,
        ),
        Command::UnifyAll => unify_all(alloc, settings, database, theorem, tree, steps),
        Command::InitializeStep { step } => {
            initialize_step(alloc, settings, database, theorem, tree, step, steps)
        }
        Command::InitializeAll => initialize_all(alloc, settings, database, theorem, tree, steps),
        Command::DeleteStep { step } => {
            delete_step(alloc, settings, database, theorem, tree, step, steps)
        }
        Command::DeleteAll => delete_all(alloc, settings, database, theorem, tree, steps),
        Command::DeleteFloats => delete_floats(alloc, settings, database, theorem, tree, steps),
        Command::Improve {
            step,
            depth,
            no_distinct,
        } => improve_step(
            alloc,
            settings,
            database,
            theorem,
            tree,
            step,
            depth,
            no_distinct,
            steps,
        ),
        Command::ImproveAll { depth, no_distinct } => improve_all(
            alloc,
            settings,
            database,
            theorem,
            tree,
            depth,
            no_distinct,
            steps,
        ),
        _ => Err(Refusal::NotBuilt),
    }
}
