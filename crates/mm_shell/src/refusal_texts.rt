//! The number and the words of each refusal.

ghost use Rattle.std.specs.Prelude.{◌≡◌, ◌++◌, IfOk, false, true, is_ok};
ghost use Rattle.mm_shell.specs.Answers.{refusal_takes};
ghost use Rattle.mm_shell.specs.Texts.{bad_database_text, bad_symbol_text, counted_text, not_distinct_text, refusal_text, wrong_word_text};

use crate::choices::Choices;
use crate::refusal::Refusal;
use crate::text::Text;
use crate::word::Word;
use mm_base::Memory;
use mm_command::LineFault;
use mm_scope::ReadFault;
use std::alloc::Global;

/// The text of a refusal: a line for each.
pub fn refusal_text(alloc: Global, refusal: &Refusal<'_>) -> Result<Text, Memory>
    ensures is { IfOk result (λ text. text ≡ refusal_text refusal.now) }
    ensures free { refusal_takes refusal.now ≡ false → is_ok result ≡ true }
{
    match refusal {
        Refusal::WrongWord(fault) => Ok(wrong_word(alloc, *fault)),
        Refusal::LineTooLong => Ok(Text::refusal(alloc, 4, b"line too long\n")),
        Refusal::NoDatabase => Ok(Text::refusal(alloc, 5, b"no database\n")),
        Refusal::AlreadyRead => Ok(Text::refusal(alloc, 6, b"a database is already read\n")),
        Refusal::NoFile(name) => Text::refusal_of(alloc, 7, b"no file ", name, b"\n"),
        Refusal::BadDatabase(fault) => bad_database(alloc, *fault),
        Refusal::NoStatement(label) => Text::refusal_of(alloc, 9, b"no statement ", label, b"\n"),
        Refusal::NotTheorem(label) => Text::refusal_of(
            alloc,
            10,
            b"",
            label,
            b" is not a theorem\n",
        ),
        Refusal::Guarded(label) => Text::refusal_of(alloc, 11, b"", label, b" is guarded\n"),
        Refusal::ProofOpen => Ok(Text::refusal(alloc, 12, b"a proof is in hand\n")),
        Refusal::NoProofOpen => Ok(Text::refusal(alloc, 13, b"no proof is in hand\n")),
        Refusal::NoTree(label) => Text::refusal_of(
            alloc,
            14,
            b"the proof of ",
            label,
            b" has no tree\n",
        ),
        Refusal::TooManySteps => Ok(Text::refusal(alloc, 15, b"more than 1000000 steps\n")),
        Refusal::TooDeep => Ok(Text::refusal(alloc, 16, b"higher than 2000 steps\n")),
        Refusal::NoStep => Ok(Text::refusal(alloc, 17, b"no such step\n")),
        Refusal::StepKnown(step) => Ok(Text::refusal_at(
            alloc,
            18,
            b"step ",
            *step,
            b" is known\n",
        )),
        Refusal::StepUnknown(step) => Ok(Text::refusal_at(
            alloc,
            19,
            b"step ",
            *step,
            b" is unknown\n",
        )),
        Refusal::NotEarlier(label) => Text::refusal_of(alloc, 20, b"", label, b" is not earlier\n"),
        Refusal::NotActive(label) => Text::refusal_of(
            alloc,
            21,
            b"hypothesis ",
            label,
            b" is not active\n",
        ),
        Refusal::NoUnifier(step) => Ok(Text::refusal_at(
            alloc,
            22,
            b"step ",
            *step,
            b" has no unifier\n",
        )),
        Refusal::TooLong => Ok(Text::refusal(alloc, 23, b"limit: length\n")),
        Refusal::TrialsSpent(choices) => after_choices(
            alloc,
            choices,
            Text::refusal(alloc, 23, b"limit: trials\n"),
        ),
        Refusal::LengthSpent(choices) => after_choices(
            alloc,
            choices,
            Text::refusal(alloc, 23, b"limit: length\n"),
        ),
        Refusal::SeveralUnifiers(choices, step, count) => after_choices(
            alloc,
            choices,
            counted(alloc, 24, *step, *count, b" unifiers\n")?,
        ),
        Refusal::NotPending(step) => Ok(Text::refusal_at(
            alloc,
            25,
            b"step ",
            *step,
            b" is not pending\n",
        )),
        Refusal::NoChoice(step, count) => counted(alloc, 26, *step, *count, b" choices\n"),
        Refusal::BadSymbol(word) => bad_symbol(alloc, *word),
        Refusal::OccursInValue(number) => Ok(Text::refusal_at(
            alloc,
            28,
            b"$",
            *number,
            b" occurs in its own value\n",
        )),
        Refusal::NothingChanged => Ok(Text::refusal(alloc, 29, b"nothing changed\n")),
        Refusal::HasWork(step) => Ok(Text::refusal_at(
            alloc,
            30,
            b"step ",
            *step,
            b" has work variables\n",
        )),
        Refusal::NotComplete => Ok(Text::refusal(alloc, 31, b"the proof is not complete\n")),
        Refusal::NotUnified(step) => Ok(Text::refusal_at(
            alloc,
            32,
            b"step ",
            *step,
            b" is not unified\n",
        )),
        Refusal::NotDistinct(step, left, right) => not_distinct(alloc, *step, left, right),
        Refusal::NothingToUndo => Ok(Text::refusal(alloc, 34, b"nothing to undo\n")),
        Refusal::NothingToRedo => Ok(Text::refusal(alloc, 35, b"nothing to redo\n")),
        Refusal::ProofNotSaved => Ok(Text::refusal(alloc, 36, b"the proof is not saved\n")),
        Refusal::NotWritten => Ok(Text::refusal(alloc, 37, b"the database is not written\n")),
        Refusal::NoLog => Ok(Text::refusal(alloc, 38, b"no log\n")),
        Refusal::FileFault => Ok(Text::refusal(alloc, 40, b"file fault\n")),
        Refusal::OutOfMemory => Ok(Text::refusal(alloc, 42, b"out of memory\n")),
        Refusal::WorkSpent => Ok(Text::refusal(alloc, 43, b"work variables are spent\n")),
        Refusal::LogKept => Ok(Text::refusal(alloc, 44, b"a log is already kept\n")),
        Refusal::NotBuilt => Ok(Text::refusal(alloc, 60, b"not built yet\n")),
    }
}

// C1, C2 and C3, with the number of the word.
#[tactic(auto, unfolding(crate::specs::Texts::wrong_word_text))]
fn wrong_word(alloc: Global, fault: LineFault) -> Text
    ensures { result ≡ wrong_word_text fault }
{
    if fault.number == 1 {
        return Text::refusal_at(alloc, 1, b"no keyword for word ", fault.word, b"\n");
    }
    if fault.number == 2 {
        return Text::refusal_at(alloc, 2, b"word ", fault.word, b" is ambiguous\n");
    }
    Text::refusal_at(alloc, 3, b"word ", fault.word, b" is wrong\n")
}

// C8, with the number of the fault and its place in bytes.
#[tactic(auto, unfolding(crate::specs::Texts::bad_database_text))]
fn bad_database(alloc: Global, fault: ReadFault) -> Result<Text, Memory>
    ensures { IfOk result (λ text. text ≡ bad_database_text fault) }
{
    let number = fault.number();
    let place = fault.place();
    let line = format!(in alloc; "{number} at byte {place}\n")?;
    Ok(Text::refusal_with(8, b"database fault ", line.into_bytes()))
}

// The choices, and then a refusal.
fn after_choices(alloc: Global, choices: &Choices, refusal: Text) -> Result<Text, Memory>
    ensures { IfOk result (λ text. text ≡ choices.now ++ refusal) }
{
    let (front, words, rest) = refusal.pieces();
    let mut bytes = choices.bytes().to_vec(alloc)?;
    bytes.extend_from_slice(front)?;
    bytes.extend_from_slice(words)?;
    bytes.extend_from_slice(rest)?;
    Ok(Text::new(b"", bytes))
}

// C24 and C26, with the numbers of a step and of what it has.
#[tactic(auto, unfolding(crate::specs::Texts::counted_text))]
fn counted(
    alloc: Global,
    number: u8,
    step: u32,
    count: u32,
    what: &'static [u8],
) -> Result<Text, Memory>
    ensures { IfOk result (λ text. text ≡ counted_text number step count what.now) }
{
    let line = format!(in alloc; "{step} has {count}")?;
    let mut rest = line.into_bytes();
    rest.extend_from_slice(what)?;
    Ok(Text::refusal_with(number, b"step ", rest))
}

// C27, with the number of the word.
#[tactic(auto, unfolding(crate::specs::Texts::bad_symbol_text))]
fn bad_symbol(alloc: Global, word: u64) -> Result<Text, Memory>
    ensures { IfOk result (λ text. text ≡ bad_symbol_text word) }
{
    let line = format!(in alloc; "{word}")?;
    let mut rest = line.into_bytes();
    rest.extend_from_slice(b" in the text\n")?;
    Ok(Text::refusal_with(27, b"bad symbol ", rest))
}

// C33, with the number of the step and the two variables.
#[tactic(auto, unfolding(crate::specs::Texts::not_distinct_text))]
fn not_distinct(alloc: Global, step: u32, left: &Word<'_>, right: &Word<'_>) -> Result<Text, Memory>
    ensures { IfOk result (λ text. text ≡ not_distinct_text step left.now right.now) }
{
    let line = format!(in alloc; "{step} needs ")?;
    let mut rest = line.into_bytes();
    rest.extend_from_slice(left.bytes())?;
    rest.extend_from_slice(b" and ")?;
    rest.extend_from_slice(right.bytes())?;
    rest.extend_from_slice(b" distinct\n")?;
    Ok(Text::refusal_with(33, b"step ", rest))
}
