//! Commands with a proof in hand, behind their first keyword.

ghost use Rattle.std.specs.Prelude.{[], ◌∷◌, codes};
ghost use Rattle.mm_command.specs.Names.{Assign, Replace, LetVariable, LetStep, UnifyStep, UnifyAll, InitializeStep, InitializeAll, DeleteStep, DeleteAll, DeleteFloats, Improve, Minimize, Undo, Redo, Save};
ghost use Rattle.mm_command.specs.Grammar.{Label, Text, EqualsSign, WorkVariable, Step, StepOrAll};
ghost use Rattle.mm_command.specs.Table.{flag_alone, choice_qualifiers, improve_qualifiers, minimize_qualifiers, save_qualifiers, row, rows_after};
ghost use Rattle.mm_command.specs.Taking.{HasRoom, GivesRow, GivesRows};

use crate::argument::{take_equals, take_label, take_text, take_variable};
use crate::command::Command;
use crate::fault::LineFault;
use crate::qualifier::{
    ImproveGiven, MinimizeGiven, SaveGiven, take_choice, take_improve, take_minimize, take_save,
};
use crate::step::{take_step, take_step_or_all};
use crate::take::{end, take_flag, take_keyword};
use crate::words::Words;

pub fn read_assign(words: Words<'_>) -> Result<Command<'_>, LineFault>
    requires { HasRoom words }
    ensures { GivesRow (row Assign [] (Step ∷ Label ∷ []) (flag_alone (codes "OVERRIDE"))) words.entry result }
{
    let (step, words) = take_step(words)?;
    let (label, words) = take_label(words)?;
    let guarded_too = match take_flag(words, b"OVERRIDE") {
        Ok(given) => given,
        Err(fault) => return Err(fault),
    };
    Ok(Command::Assign {
        step,
        label,
        guarded_too,
    })
}

pub fn read_replace(words: Words<'_>) -> Result<Command<'_>, LineFault>
    requires { HasRoom words }
    ensures { GivesRow (row Replace [] (Step ∷ Label ∷ []) (flag_alone (codes "OVERRIDE"))) words.entry result }
{
    let (step, words) = take_step(words)?;
    let (label, words) = take_label(words)?;
    let guarded_too = match take_flag(words, b"OVERRIDE") {
        Ok(given) => given,
        Err(fault) => return Err(fault),
    };
    Ok(Command::Replace {
        step,
        label,
        guarded_too,
    })
}

// Behind LET.
pub fn read_let(words: Words<'_>) -> Result<Command<'_>, LineFault>
    requires { HasRoom words }
    ensures { GivesRows (rows_after (codes "LET" ∷ [])) words.entry result }
{
    match take_keyword(words, &[b"VARIABLE", b"STEP"]) {
        Err(fault) => Err(fault),
        Ok((place, words)) => match place {
            0 => read_let_variable(words),
            _ => read_let_step(words),
        },
    }
}

fn read_let_variable(words: Words<'_>) -> Result<Command<'_>, LineFault>
    requires { HasRoom words }
    ensures { GivesRow (row LetVariable [] (WorkVariable ∷ EqualsSign ∷ Text ∷ []) []) words.entry result }
{
    let (number, words) = take_variable(words)?;
    let ((), words) = take_equals(words)?;
    let word = words.number;
    let (text, words) = take_text(words)?;
    match end(words) {
        Ok(()) => Ok(Command::LetVariable { number, text, word }),
        Err(fault) => Err(fault),
    }
}

fn read_let_step(words: Words<'_>) -> Result<Command<'_>, LineFault>
    requires { HasRoom words }
    ensures { GivesRow (row LetStep [] (Step ∷ EqualsSign ∷ Text ∷ []) []) words.entry result }
{
    let (step, words) = take_step(words)?;
    let ((), words) = take_equals(words)?;
    let word = words.number;
    let (text, words) = take_text(words)?;
    match end(words) {
        Ok(()) => Ok(Command::LetStep { step, text, word }),
        Err(fault) => Err(fault),
    }
}

// Behind UNIFY.
pub fn read_unify(words: Words<'_>) -> Result<Command<'_>, LineFault>
    requires { HasRoom words }
    ensures { GivesRows (rows_after (codes "UNIFY" ∷ [])) words.entry result }
{
    match take_keyword(words, &[b"STEP", b"ALL"]) {
        Err(fault) => Err(fault),
        Ok((place, words)) => match place {
            0 => read_unify_step(words),
            _ => read_unify_all(words),
        },
    }
}

fn read_unify_step(words: Words<'_>) -> Result<Command<'_>, LineFault>
    requires { HasRoom words }
    ensures { GivesRow (row UnifyStep [] (Step ∷ []) choice_qualifiers) words.entry result }
{
    let (step, words) = take_step(words)?;
    let choice = take_choice(words, None)?;
    Ok(Command::UnifyStep { step, choice })
}

fn read_unify_all(words: Words<'_>) -> Result<Command<'_>, LineFault>
    requires { HasRoom words }
    ensures { GivesRow (row UnifyAll [] [] []) words.entry result }
{
    end(words)?;
    Ok(Command::UnifyAll)
}

// Behind INITIALIZE.
pub fn read_initialize(words: Words<'_>) -> Result<Command<'_>, LineFault>
    requires { HasRoom words }
    ensures { GivesRows (rows_after (codes "INITIALIZE" ∷ [])) words.entry result }
{
    match take_keyword(words, &[b"STEP", b"ALL"]) {
        Err(fault) => Err(fault),
        Ok((place, words)) => match place {
            0 => read_initialize_step(words),
            _ => read_initialize_all(words),
        },
    }
}

fn read_initialize_step(words: Words<'_>) -> Result<Command<'_>, LineFault>
    requires { HasRoom words }
    ensures { GivesRow (row InitializeStep [] (Step ∷ []) []) words.entry result }
{
    let (step, words) = take_step(words)?;
    end(words)?;
    Ok(Command::InitializeStep { step })
}

fn read_initialize_all(words: Words<'_>) -> Result<Command<'_>, LineFault>
    requires { HasRoom words }
    ensures { GivesRow (row InitializeAll [] [] []) words.entry result }
{
    end(words)?;
    Ok(Command::InitializeAll)
}

// Behind DELETE.
pub fn read_delete(words: Words<'_>) -> Result<Command<'_>, LineFault>
    requires { HasRoom words }
    ensures { GivesRows (rows_after (codes "DELETE" ∷ [])) words.entry result }
{
    match take_keyword(words, &[b"STEP", b"ALL", b"FLOATING_HYPOTHESES"]) {
        Err(fault) => Err(fault),
        Ok((place, words)) => match place {
            0 => read_delete_step(words),
            1 => read_delete_all(words),
            _ => read_delete_floats(words),
        },
    }
}

fn read_delete_step(words: Words<'_>) -> Result<Command<'_>, LineFault>
    requires { HasRoom words }
    ensures { GivesRow (row DeleteStep [] (Step ∷ []) []) words.entry result }
{
    let (step, words) = take_step(words)?;
    end(words)?;
    Ok(Command::DeleteStep { step })
}

fn read_delete_all(words: Words<'_>) -> Result<Command<'_>, LineFault>
    requires { HasRoom words }
    ensures { GivesRow (row DeleteAll [] [] []) words.entry result }
{
    end(words)?;
    Ok(Command::DeleteAll)
}

fn read_delete_floats(words: Words<'_>) -> Result<Command<'_>, LineFault>
    requires { HasRoom words }
    ensures { GivesRow (row DeleteFloats [] [] []) words.entry result }
{
    end(words)?;
    Ok(Command::DeleteFloats)
}

pub fn read_improve(words: Words<'_>) -> Result<Command<'_>, LineFault>
    requires { HasRoom words }
    ensures { GivesRow (row Improve [] (StepOrAll ∷ []) improve_qualifiers) words.entry result }
{
    let (step, words) = take_step_or_all(words)?;
    let none = ImproveGiven {
        depth: None,
        no_distinct: false,
    };
    let given = take_improve(words, none)?;
    match step {
        Some(step) => Ok(Command::Improve {
            step,
            depth: given.depth,
            no_distinct: given.no_distinct,
        }),
        None => Ok(Command::ImproveAll {
            depth: given.depth,
            no_distinct: given.no_distinct,
        }),
    }
}

pub fn read_minimize(words: Words<'_>) -> Result<Command<'_>, LineFault>
    requires { HasRoom words }
    ensures { GivesRow (row Minimize [] (Label ∷ []) minimize_qualifiers) words.entry result }
{
    let (pattern, words) = take_label(words)?;
    let none = MinimizeGiven {
        except: None,
        forbid: None,
        no_new_axioms: None,
        may_grow: false,
        guarded_too: false,
    };
    let given = take_minimize(words, none)?;
    Ok(Command::Minimize {
        pattern,
        except: given.except,
        forbid: given.forbid,
        no_new_axioms: given.no_new_axioms,
        may_grow: given.may_grow,
        guarded_too: given.guarded_too,
    })
}

pub fn read_undo(words: Words<'_>) -> Result<Command<'_>, LineFault>
    requires { HasRoom words }
    ensures { GivesRow (row Undo [] [] []) words.entry result }
{
    end(words)?;
    Ok(Command::Undo)
}

pub fn read_redo(words: Words<'_>) -> Result<Command<'_>, LineFault>
    requires { HasRoom words }
    ensures { GivesRow (row Redo [] [] []) words.entry result }
{
    end(words)?;
    Ok(Command::Redo)
}

// Behind SAVE.
pub fn read_save(words: Words<'_>) -> Result<Command<'_>, LineFault>
    requires { HasRoom words }
    ensures { GivesRows (rows_after (codes "SAVE" ∷ [])) words.entry result }
{
    match take_keyword(words, &[b"NEW_PROOF"]) {
        Err(fault) => Err(fault),
        Ok((_, words)) => read_save_new_proof(words),
    }
}

fn read_save_new_proof(words: Words<'_>) -> Result<Command<'_>, LineFault>
    requires { HasRoom words }
    ensures { GivesRow (row Save [] [] save_qualifiers) words.entry result }
{
    let none = SaveGiven {
        normal: false,
        compressed: false,
        guarded_too: false,
    };
    let given = take_save(words, none)?;
    Ok(Command::Save {
        normal: given.normal,
        compressed: given.compressed,
        guarded_too: given.guarded_too,
    })
}
