//! The text of each report.

ghost use Rattle.std.specs.Prelude.{◌≡◌, IfOk, false, true, is_ok};
ghost use Rattle.mm_shell.specs.Answers.{report_takes};
ghost use Rattle.mm_shell.specs.Texts.{loaded_text, report_text, saved_text, state_word, wrote_text};

use crate::listing::statements_text;
use crate::report::Report;
use crate::steps::steps_text;
use crate::text::Text;
use crate::verdict::checks_text;
use crate::word::Word;
use itoa::Buffer;
use mm_base::Memory;
use std::alloc::Global;

/// The text of a report: a line for each.
pub fn report_text(alloc: Global, report: &Report<'_>) -> Result<Text, Memory>
    ensures is { IfOk result (λ text. text ≡ report_text report.now) }
    ensures free { report_takes report.now ≡ false → is_ok result ≡ true }
{
    match report {
        Report::Nothing => Ok(Text::fixed(alloc, b"")),
        Report::Loaded(labelled, axioms, theorems) => loaded(alloc, *labelled, *axioms, *theorems),
        Report::Verified(database, checks) => {
            checks_text(alloc, database.database(), checks.as_slice())
        }
        Report::Listed(database, statements) => {
            statements_text(alloc, database.database(), statements.as_slice())
        }
        Report::Steps(proof, only_unknown) => steps_text(alloc, proof, *only_unknown),
        Report::Wrote(name) => wrote(alloc, name),
        Report::LogOpened => Ok(Text::fixed(alloc, b"Log opened.\n")),
        Report::LogClosed => Ok(Text::fixed(alloc, b"Log closed.\n")),
        Report::Counts(steps, unknown, pending) => Ok(Text::counts(
            alloc, *steps, *unknown, *pending,
        )),
        Report::Undone => Ok(Text::fixed(alloc, b"Undone.\n")),
        Report::Redone => Ok(Text::fixed(alloc, b"Redone.\n")),
        Report::UndoDepth(n) => Ok(Text::setting(alloc, b"Undo depth ", *n)),
        Report::Trials(n) => Ok(Text::setting(alloc, b"Trials ", *n)),
        Report::Brackets(true) => Ok(Text::fixed(alloc, b"Brackets ON.\n")),
        Report::Brackets(false) => Ok(Text::fixed(alloc, b"Brackets OFF.\n")),
        Report::NoEmptyStrings => Ok(Text::fixed(alloc, b"Empty substitution OFF.\n")),
        Report::Saved(label, some_unknown, steps) => saved(alloc, label, *some_unknown, *steps),
    }
}

#[tactic(auto, unfolding(crate::specs::Texts::loaded_text))]
fn loaded(alloc: Global, labelled: u32, axioms: u32, theorems: u32) -> Result<Text, Memory>
    ensures { IfOk result (λ text. text ≡ loaded_text labelled axioms theorems) }
{
    let line = format!(in alloc; "{labelled}, axioms {axioms}, theorems {theorems}.\n")?;
    Ok(Text::new(b"Read: labelled ", line.into_bytes()))
}

#[tactic(auto, unfolding(crate::specs::Texts::wrote_text))]
fn wrote(alloc: Global, name: &Word<'_>) -> Result<Text, Memory>
    ensures { IfOk result (λ text. text ≡ wrote_text name.now) }
{
    let mut rest = name.bytes().to_vec(alloc)?;
    rest.extend_from_slice(b".\n")?;
    Ok(Text::new(b"Wrote ", rest))
}

#[tactic(auto, unfolding(crate::specs::Texts::saved_text))]
fn saved(alloc: Global, label: &Word<'_>, some_unknown: bool, steps: u32) -> Result<Text, Memory>
    ensures { IfOk result (λ text. text ≡ saved_text label.now some_unknown steps) }
{
    let mut buffer = Buffer::new();
    let mut rest = label.bytes().to_vec(alloc)?;
    rest.extend_from_slice(state_word(some_unknown))?;
    rest.extend_from_slice(buffer.format(steps).as_bytes())?;
    rest.extend_from_slice(b" steps.\n")?;
    Ok(Text::new(b"Saved ", rest))
}

// Between the label and the number of steps.
fn state_word(some_unknown: bool) -> &'static [u8]
    ensures { result.now ≡ state_word some_unknown }
{
    if some_unknown {
        b": incomplete, "
    } else {
        b": complete, "
    }
}
