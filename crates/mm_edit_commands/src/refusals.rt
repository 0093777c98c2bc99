//! Why edits are refused.

ghost use Rattle.std.specs.Prelude.{◌≡◌, IfOk};
ghost use Rattle.mm_shell.specs.Choices.{choices_text};
ghost use Rattle.mm_edit_commands.specs.Refusals.{edit_refusal, found_in, unify_refusal, wrong_word};

use mm_base::Memory;
use mm_command::LineFault;
use mm_edit::{EditFault, UnifyFault};
use mm_scope::Database;
use mm_shell::{Choices, Refusal, Word, choices_of};
use mm_unify::Listing;
use std::alloc::Global;

/// C3, for the word with this number.
pub fn wrong_word<'a>(word: u32) -> Refusal<'a>
    ensures { result ≡ wrong_word word }
{
    Refusal::WrongWord(LineFault { number: 3, word })
}

/// The refusal of an edit that was given a label, and the number of a step or of a work variable; these are empty and 0 where
/// it was given none.
pub fn edit_refusal<'a>(
    alloc: Global,
    label: &'a [u8],
    number: u32,
    fault: EditFault,
) -> Refusal<'a>
    ensures { result ≡ edit_refusal label.now number fault }
{
    match fault {
        EditFault::NotEarlier => Refusal::NotEarlier(Word::new(label)),
        EditFault::HypothesisNotActive => Refusal::NotActive(Word::new(label)),
        EditFault::NoSuchStep => Refusal::NoStep,
        EditFault::StepKnown => Refusal::StepKnown(number),
        EditFault::StepUnknown => Refusal::StepUnknown(number),
        EditFault::HasWork => Refusal::HasWork(number),
        EditFault::NotPending => Refusal::NotPending(number),
        EditFault::OccursInValue => Refusal::OccursInValue(number),
        EditFault::NothingChanged => Refusal::NothingChanged,
        EditFault::TooManySteps => Refusal::TooManySteps,
        EditFault::TooDeep => Refusal::TooDeep,
        EditFault::WorkSpent => Refusal::WorkSpent,
        EditFault::NoUnifier => Refusal::NoUnifier(number),
        EditFault::TrialsSpent => Refusal::TrialsSpent(Choices::none(alloc)),
        EditFault::LengthSpent => Refusal::LengthSpent(Choices::none(alloc)),
        EditFault::Ambiguous(count) => Refusal::SeveralUnifiers(
            Choices::none(alloc),
            number,
            count,
        ),
        EditFault::NoSuchChoice(count) => Refusal::NoChoice(number, count),
        EditFault::TooLong(_) => Refusal::TooLong,
        EditFault::Memory => Refusal::OutOfMemory,
    }
}

/// The refusal to unify the step with a number, and the unifiers that were found where they are told.
pub fn unify_refusal<'a>(
    alloc: Global,
    database: &Database,
    number: u32,
    refused: UnifyFault,
) -> Result<Refusal<'a>, Memory>
    ensures { IfOk result (λ r. r ≡ unify_refusal database.now number (found_in refused.listing) refused.fault) }
{
    match refused.fault {
        EditFault::TrialsSpent => Ok(Refusal::TrialsSpent(choices_told(
            alloc,
            database,
            &refused.listing,
        )?)),
        EditFault::LengthSpent => Ok(Refusal::LengthSpent(choices_told(
            alloc,
            database,
            &refused.listing,
        )?)),
        EditFault::Ambiguous(count) => {
            let choices = choices_told(alloc, database, &refused.listing)?;
            Ok(Refusal::SeveralUnifiers(choices, number, count))
        }
        fault => Ok(edit_refusal(alloc, b"", number, fault)),
    }
}

// The unifiers of a listing as choices.
fn choices_told(
    alloc: Global,
    database: &Database,
    listing: &Option<Listing>,
) -> Result<Choices, Memory>
    ensures { IfOk result (λ c. c ≡ choices_text database.now (found_in listing.now)) }
{
    match listing {
        Some(listing) => choices_of(alloc, database, listing.found.as_slice()),
        None => choices_of(alloc, database, &[]),
    }
}
