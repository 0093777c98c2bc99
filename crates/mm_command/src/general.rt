//! Commands in both modes, behind their first keyword.

ghost use Rattle.std.specs.Prelude.{[], ◌∷◌, codes};
ghost use Rattle.mm_command.specs.Names.{Read, VerifyProof, VerifyMarkup, ShowStatement, ShowTraceBack, ShowUsage, ShowNewProof, SetUndo, SetTrials, SetBrackets, SetEmpty, WriteSource, OpenLog, CloseLog, Prove, Demo, Exit};
ghost use Rattle.mm_command.specs.Grammar.{Label, File, OnOrOff, OffAlone, Number};
ghost use Rattle.mm_command.specs.Limits.{most_demo, most_trials, most_undo};
ghost use Rattle.mm_command.specs.Table.{flag_alone, row, rows_after};
ghost use Rattle.mm_command.specs.Taking.{HasRoom, GivesRow, GivesRows};

use crate::argument::{take_file, take_label, take_number, take_off, take_switch};
use crate::command::Command;
use crate::fault::LineFault;
use crate::limits::{MOST_DEMO, MOST_TRIALS, MOST_UNDO};
use crate::take::{end, take_flag, take_keyword};
use crate::words::Words;

pub fn read_read(words: Words<'_>) -> Result<Command<'_>, LineFault>
    requires { HasRoom words }
    ensures { GivesRow (row Read [] (File ∷ []) []) words.entry result }
{
    let (file, words) = take_file(words)?;
    end(words)?;
    Ok(Command::Read { file })
}

// Behind VERIFY.
pub fn read_verify(words: Words<'_>) -> Result<Command<'_>, LineFault>
    requires { HasRoom words }
    ensures { GivesRows (rows_after (codes "VERIFY" ∷ [])) words.entry result }
{
    match take_keyword(words, &[b"PROOF", b"MARKUP"]) {
        Err(fault) => Err(fault),
        Ok((place, words)) => match place {
            0 => read_verify_proof(words),
            _ => read_verify_markup(words),
        },
    }
}

fn read_verify_proof(words: Words<'_>) -> Result<Command<'_>, LineFault>
    requires { HasRoom words }
    ensures { GivesRow (row VerifyProof [] (Label ∷ []) []) words.entry result }
{
    let (pattern, words) = take_label(words)?;
    end(words)?;
    Ok(Command::VerifyProof { pattern })
}

fn read_verify_markup(words: Words<'_>) -> Result<Command<'_>, LineFault>
    requires { HasRoom words }
    ensures { GivesRow (row VerifyMarkup [] (Label ∷ []) []) words.entry result }
{
    let (pattern, words) = take_label(words)?;
    end(words)?;
    Ok(Command::VerifyMarkup { pattern })
}

// Behind SHOW.
pub fn read_show(words: Words<'_>) -> Result<Command<'_>, LineFault>
    requires { HasRoom words }
    ensures { GivesRows (rows_after (codes "SHOW" ∷ [])) words.entry result }
{
    match take_keyword(
        words,
        &[b"STATEMENT", b"TRACE_BACK", b"USAGE", b"NEW_PROOF"],
    ) {
        Err(fault) => Err(fault),
        Ok((place, words)) => match place {
            0 => read_show_statement(words),
            1 => read_show_trace_back(words),
            2 => read_show_usage(words),
            _ => read_show_new_proof(words),
        },
    }
}

fn read_show_statement(words: Words<'_>) -> Result<Command<'_>, LineFault>
    requires { HasRoom words }
    ensures { GivesRow (row ShowStatement [] (Label ∷ []) (flag_alone (codes "HTML"))) words.entry result }
{
    let (label, words) = take_label(words)?;
    match take_flag(words, b"HTML") {
        Ok(true) => Ok(Command::ShowPage { label }),
        Ok(false) => Ok(Command::ShowStatement { label }),
        Err(fault) => Err(fault),
    }
}

fn read_show_trace_back(words: Words<'_>) -> Result<Command<'_>, LineFault>
    requires { HasRoom words }
    ensures { GivesRow (row ShowTraceBack [] (Label ∷ []) (flag_alone (codes "AXIOMS"))) words.entry result }
{
    let (label, words) = take_label(words)?;
    let axioms = match take_flag(words, b"AXIOMS") {
        Ok(given) => given,
        Err(fault) => return Err(fault),
    };
    Ok(Command::ShowTraceBack { label, axioms })
}

fn read_show_usage(words: Words<'_>) -> Result<Command<'_>, LineFault>
    requires { HasRoom words }
    ensures { GivesRow (row ShowUsage [] (Label ∷ []) (flag_alone (codes "RECURSIVE"))) words.entry result }
{
    let (label, words) = take_label(words)?;
    let recursive = match take_flag(words, b"RECURSIVE") {
        Ok(given) => given,
        Err(fault) => return Err(fault),
    };
    Ok(Command::ShowUsage { label, recursive })
}

fn read_show_new_proof(words: Words<'_>) -> Result<Command<'_>, LineFault>
    requires { HasRoom words }
    ensures { GivesRow (row ShowNewProof [] [] (flag_alone (codes "UNKNOWN"))) words.entry result }
{
    let unknown = take_flag(words, b"UNKNOWN")?;
    Ok(Command::ShowNewProof { unknown })
}

// Behind SET.
pub fn read_set(words: Words<'_>) -> Result<Command<'_>, LineFault>
    requires { HasRoom words }
    ensures { GivesRows (rows_after (codes "SET" ∷ [])) words.entry result }
{
    match take_keyword(
        words,
        &[
            b"UNDO",
            b"UNIFICATION_TIMEOUT",
            b"BRACKETS",
            b"EMPTY_SUBSTITUTION",
        ],
    ) {
        Err(fault) => Err(fault),
        Ok((place, words)) => match place {
            0 => read_set_undo(words),
            1 => read_set_trials(words),
            2 => read_set_brackets(words),
            _ => read_set_empty(words),
        },
    }
}

fn read_set_undo(words: Words<'_>) -> Result<Command<'_>, LineFault>
    requires { HasRoom words }
    ensures { GivesRow (row SetUndo [] (Number 0 most_undo ∷ []) []) words.entry result }
{
    let (n, words) = take_number(words, 0, MOST_UNDO)?;
    end(words)?;
    Ok(Command::SetUndo { n })
}

fn read_set_trials(words: Words<'_>) -> Result<Command<'_>, LineFault>
    requires { HasRoom words }
    ensures { GivesRow (row SetTrials [] (Number 1 most_trials ∷ []) []) words.entry result }
{
    let (n, words) = take_number(words, 1, MOST_TRIALS)?;
    end(words)?;
    Ok(Command::SetTrials { n })
}

fn read_set_brackets(words: Words<'_>) -> Result<Command<'_>, LineFault>
    requires { HasRoom words }
    ensures { GivesRow (row SetBrackets [] (OnOrOff ∷ []) []) words.entry result }
{
    let (on, words) = take_switch(words)?;
    end(words)?;
    Ok(Command::SetBrackets { on })
}

fn read_set_empty(words: Words<'_>) -> Result<Command<'_>, LineFault>
    requires { HasRoom words }
    ensures { GivesRow (row SetEmpty [] (OffAlone ∷ []) []) words.entry result }
{
    let (on, words) = take_off(words)?;
    end(words)?;
    Ok(Command::SetEmpty { on })
}

// Behind WRITE.
pub fn read_write(words: Words<'_>) -> Result<Command<'_>, LineFault>
    requires { HasRoom words }
    ensures { GivesRows (rows_after (codes "WRITE" ∷ [])) words.entry result }
{
    match take_keyword(words, &[b"SOURCE"]) {
        Err(fault) => Err(fault),
        Ok((_, words)) => read_write_source(words),
    }
}

fn read_write_source(words: Words<'_>) -> Result<Command<'_>, LineFault>
    requires { HasRoom words }
    ensures { GivesRow (row WriteSource [] (File ∷ []) []) words.entry result }
{
    let (file, words) = take_file(words)?;
    end(words)?;
    Ok(Command::WriteSource { file })
}

// Behind OPEN.
pub fn read_open(words: Words<'_>) -> Result<Command<'_>, LineFault>
    requires { HasRoom words }
    ensures { GivesRows (rows_after (codes "OPEN" ∷ [])) words.entry result }
{
    match take_keyword(words, &[b"LOG"]) {
        Err(fault) => Err(fault),
        Ok((_, words)) => read_open_log(words),
    }
}

fn read_open_log(words: Words<'_>) -> Result<Command<'_>, LineFault>
    requires { HasRoom words }
    ensures { GivesRow (row OpenLog [] (File ∷ []) []) words.entry result }
{
    let (file, words) = take_file(words)?;
    end(words)?;
    Ok(Command::OpenLog { file })
}

// Behind CLOSE.
pub fn read_close(words: Words<'_>) -> Result<Command<'_>, LineFault>
    requires { HasRoom words }
    ensures { GivesRows (rows_after (codes "CLOSE" ∷ [])) words.entry result }
{
    match take_keyword(words, &[b"LOG"]) {
        Err(fault) => Err(fault),
        Ok((_, words)) => read_close_log(words),
    }
}

fn read_close_log(words: Words<'_>) -> Result<Command<'_>, LineFault>
    requires { HasRoom words }
    ensures { GivesRow (row CloseLog [] [] []) words.entry result }
{
    end(words)?;
    Ok(Command::CloseLog)
}

pub fn read_prove(words: Words<'_>) -> Result<Command<'_>, LineFault>
    requires { HasRoom words }
    ensures { GivesRow (row Prove [] (Label ∷ []) (flag_alone (codes "OVERRIDE"))) words.entry result }
{
    let (label, words) = take_label(words)?;
    let guarded_too = match take_flag(words, b"OVERRIDE") {
        Ok(given) => given,
        Err(fault) => return Err(fault),
    };
    Ok(Command::Prove { label, guarded_too })
}

pub fn read_demo(words: Words<'_>) -> Result<Command<'_>, LineFault>
    requires { HasRoom words }
    ensures { GivesRow (row Demo [] (Number 1 most_demo ∷ []) []) words.entry result }
{
    let (n, words) = take_number(words, 1, MOST_DEMO)?;
    end(words)?;
    Ok(Command::Demo { n })
}

// EXIT and QUIT are one command.
pub fn read_exit(words: Words<'_>) -> Result<Command<'_>, LineFault>
    requires { HasRoom words }
    ensures { GivesRow (row Exit [] [] (flag_alone (codes "FORCE"))) words.entry result }
{
    let force = take_flag(words, b"FORCE")?;
    Ok(Command::Exit { force })
}
