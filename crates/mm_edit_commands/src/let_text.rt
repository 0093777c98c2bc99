//! LET VARIABLE and LET STEP.

ghost use Rattle.std.specs.Prelude.{◌≡◌, ◌<◌, OnErr, [], length, false};
ghost use Rattle.std.specs.List.{list_all};
ghost use Rattle.mm_tokens.specs.Bytes.{is_white};
ghost use Rattle.mm_scope.specs.Contents.{labels_of};
ghost use Rattle.mm_edit.specs.Letting.{step_let, variable_let};
ghost use Rattle.mm_shell.specs.Answers.{or_refusal};
ghost use Rattle.mm_shell.specs.Sound.{IsProofOf};
ghost use Rattle.mm_tree.specs.Versions.{BeginsAlike, HasNoDrafts};
ghost use Rattle.mm_undo.specs.Histories.{KeepsSettled};
ghost use Rattle.mm_edit_commands.specs.Edits.{EditsTree, let_step, let_variable};
ghost use Rattle.mm_edit_commands.specs.Refusals.{edit_refusal};
ghost use Rattle.mm_edit_commands.specs.Steps.{step_number};
ghost use Rattle.mm_edit_commands.specs.Values.{GivesValue, is_empty, value_of};

use crate::refusals::{edit_refusal, wrong_word};
use crate::step_words::step_number;
use mm_base::Steps;
use mm_command::StepWord;
use mm_scope::{Database, StmtId};
use mm_shell::Refusal;
use mm_subst::{ParseFault, WStr, parse};
use mm_tokens::is_white;
use mm_tree::Tree;
use mm_unify::Settings;
use std::alloc::Global;
use std::sync::ledger::Ledger;

/// Whether there are no other bytes than white space.
fn is_white_alone(text: &[u8]) -> bool
    ensures { result ≡ list_all is_white text.now }
{
    text.iter().all(|byte| is_white(*byte))
}

/// Whether a text has no word.
fn is_empty(text: &[u8]) -> bool
    ensures { result ≡ is_empty text.now }
{
    is_white_alone(text)
}

/// The string of a text that has a word.
fn value_of<'a>(
    alloc: Global,
    database: &Database,
    theorem: StmtId,
    tree: &Tree,
    text: &[u8],
) -> Result<WStr, Refusal<'a>>
    requires at { theorem.0 < length (labels_of database.now) }
    requires some { is_empty text.now ≡ false }
    ensures { GivesValue (value_of database.now theorem.0 tree.now.proof text.now) result }
{
    match parse(alloc, database, theorem, text, tree.next_work()) {
        Ok(value) => Ok(value),
        Err(ParseFault::BadSymbol(word)) => Err(Refusal::BadSymbol(word)),
        Err(ParseFault::TooLong) => Err(Refusal::TooLong),
        Err(ParseFault::Empty) => unreachable!(),
        Err(ParseFault::Memory) => Err(Refusal::OutOfMemory),
    }
}

/// LET VARIABLE $n = text, where the text is the word with this number.
#[tactic(auto, using(crate::proofs::EditLemmas::settled_stay), unfolding(mm_shell::specs::Answers::unless))]
pub fn let_variable<'a, L: Ledger>(
    alloc: Global,
    settings: &Settings,
    database: &Database,
    theorem: StmtId,
    tree: &mut Tree,
    number: u32,
    text: &'a [u8],
    word: u32,
    steps: &mut Steps<L>,
) -> Result<(), Refusal<'a>>
    requires at { theorem.0 < length (labels_of database.now) }
    requires valid { IsProofOf database.now theorem.0 tree.old.proof }
    requires settled { HasNoDrafts tree.old.versions }
    ensures edited { EditsTree (let_variable database.now theorem.0 tree.old.proof number text.now word) tree.old.proof result tree.new.proof }
    ensures marks { KeepsSettled tree.old.versions tree.new.versions }
    ensures begun { BeginsAlike tree.old.versions tree.new.versions }
    ensures refused { OnErr result (HasNoDrafts tree.new.versions) }
{
    if is_empty(text) {
        return Err(wrong_word(word));
    }
    match value_of(alloc, database, theorem, tree, text) {
        Err(refusal) => Err(refusal),
        Ok(value) => let_variable_be(
            alloc, settings, database, theorem, tree, number, &value, steps,
        ),
    }
}

// The value is found.
fn let_variable_be<'a, L: Ledger>(
    alloc: Global,
    settings: &Settings,
    database: &Database,
    theorem: StmtId,
    tree: &mut Tree,
    number: u32,
    value: &WStr,
    steps: &mut Steps<L>,
) -> Result<(), Refusal<'a>>
    requires at { theorem.0 < length (labels_of database.now) }
    requires valid { IsProofOf database.now theorem.0 tree.old.proof }
    requires settled { HasNoDrafts tree.old.versions }
    ensures edited { EditsTree (or_refusal (variable_let database.now tree.old.proof number value.now) (edit_refusal [] number)) tree.old.proof result tree.new.proof }
    ensures marks { KeepsSettled tree.old.versions tree.new.versions }
    ensures begun { BeginsAlike tree.old.versions tree.new.versions }
    ensures refused { OnErr result (HasNoDrafts tree.new.versions) }
{
    match mm_edit::let_variable(
        alloc, tree, database, theorem, settings, number, value, steps,
    ) {
        Ok(()) => Ok(()),
        Err(fault) => Err(edit_refusal(alloc, b"", number, fault)),
    }
}

/// LET STEP step = text, where the text is the word with this number.
#[tactic(auto, using(crate::proofs::EditLemmas::settled_stay), unfolding(mm_shell::specs::Answers::unless))]
pub fn let_step<'a, L: Ledger>(
    alloc: Global,
    settings: &Settings,
    database: &Database,
    theorem: StmtId,
    tree: &mut Tree,
    step: StepWord,
    text: &'a [u8],
    word: u32,
    steps: &mut Steps<L>,
) -> Result<(), Refusal<'a>>
    requires at { theorem.0 < length (labels_of database.now) }
    requires valid { IsProofOf database.now theorem.0 tree.old.proof }
    requires settled { HasNoDrafts tree.old.versions }
    ensures edited { EditsTree (let_step settings.now database.now theorem.0 tree.old.proof step text.now word) tree.old.proof result tree.new.proof }
    ensures marks { KeepsSettled tree.old.versions tree.new.versions }
    ensures begun { BeginsAlike tree.old.versions tree.new.versions }
    ensures refused { OnErr result (HasNoDrafts tree.new.versions) }
{
    if is_empty(text) {
        return Err(wrong_word(word));
    }
    match value_of(alloc, database, theorem, tree, text) {
        Err(refusal) => Err(refusal),
        Ok(value) => let_step_be(
            alloc, settings, database, theorem, tree, step, &value, steps,
        ),
    }
}

// The text is a string.
#[tactic(auto, using(crate::proofs::EditLemmas::settled_stay, crate::proofs::EditLemmas::edit_takes_memory))]
fn let_step_be<'a, L: Ledger>(
    alloc: Global,
    settings: &Settings,
    database: &Database,
    theorem: StmtId,
    tree: &mut Tree,
    step: StepWord,
    value: &WStr,
    steps: &mut Steps<L>,
) -> Result<(), Refusal<'a>>
    requires at { theorem.0 < length (labels_of database.now) }
    requires valid { IsProofOf database.now theorem.0 tree.old.proof }
    requires settled { HasNoDrafts tree.old.versions }
    ensures edited { EditsTree (or_refusal (step_let database.now settings.now tree.old.proof (step_number tree.old.proof.plain step) value.now) (edit_refusal [] (step_number tree.old.proof.plain step))) tree.old.proof result tree.new.proof }
    ensures marks { KeepsSettled tree.old.versions tree.new.versions }
    ensures begun { BeginsAlike tree.old.versions tree.new.versions }
    ensures refused { OnErr result (HasNoDrafts tree.new.versions) }
{
    let step = step_number(alloc, tree, step)?;
    match mm_edit::let_step(alloc, tree, database, theorem, settings, step, value, steps) {
        Ok(()) => Ok(()),
        Err(fault) => Err(edit_refusal(alloc, b"", step, fault)),
    }
}
