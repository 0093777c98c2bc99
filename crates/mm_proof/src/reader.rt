//! The steps that letters spell.

ghost use Rattle.std.specs.Prelude.{◌≡◌, ◌<◌, ◌≤◌, ◌^◌, ◌++◌, [], ◌∷◌, length, OnOk};
ghost use Rattle.mm_proof.specs.Numbers.{IsDigit};
ghost use Rattle.mm_proof.specs.Steps.{untagged};
ghost use Rattle.mm_proof.specs.Reading.{read, step_numbered, tag_last};
ghost use Rattle.mm_proof.specs.Readers.{Takes, IsSmall, GivesSteps};

use crate::fault::ProofFault;
use crate::label::MOST_NUMBERS;
use crate::letter::{Letter, letter_of};
use crate::letters::Letters;
use crate::step::{ProofStep, StepKind};
use std::alloc::{AllocError, Global};

/// From here on a number is out of range whatever follows; a greater one is kept as this.
const MOST: u64 = 1 << 40;

/// More steps than this have no numbers: memory is wanted first.
const MOST_STEPS: usize = u32::MAX as usize;

/// What is read so far: the number of which some letters are read, 0 between numbers; whether a complete number was the last;
/// the numbers of the steps with a tag; and the steps.
#[derive(Drop)]
pub struct Reader {
    pub number: u64,
    pub complete: bool,
    pub tags: Vec<u32>,
    pub steps: Vec<ProofStep>,
}

/// The step with a number from 0 on.
fn step_numbered(kinds: &[StepKind], tags: &[u32], number: u64) -> Option<StepKind>
    ensures { result ≡ step_numbered kinds.now tags.now number }
{
    if let Some(kind) = kinds.get(number as usize) {
        return Some(*kind);
    }
    match tags.get((number - kinds.len() as u64) as usize) {
        Some(step) => Some(StepKind::Back(*step)),
        None => None,
    }
}

/// Appends a step.
fn push_step(steps: &mut Vec<ProofStep>, kind: StepKind) -> Result<(), AllocError>
    ensures items { OnOk result (steps.new.items ≡ steps.old.items ++ untagged kind ∷ []) }
    ensures small { OnOk result (length steps.new.items < 2 ^ 32) }
{
    if steps.len() >= MOST_STEPS {
        return Err(AllocError);
    }
    steps.push(ProofStep {
        kind,
        tagged: false,
    })?;
    Ok(())
}

/// Appends the number of a step with a tag.
fn push_tag(tags: &mut Vec<u32>, step: u32) -> Result<(), AllocError>
    ensures items { OnOk result (tags.new.items ≡ tags.old.items ++ step ∷ []) }
    ensures small { OnOk result (length tags.new.items < 2 ^ 32) }
{
    if tags.len() >= MOST_STEPS {
        return Err(AllocError);
    }
    tags.push(step)?;
    Ok(())
}

/// Gives the last step a tag.
fn tag_last(steps: &mut Vec<ProofStep>)
    ensures { steps.new.items ≡ tag_last steps.old.items }
{
    if let Some(last) = steps.last_mut() {
        last.tagged = true;
    }
}

impl Reader {
    /// Reads one letter.
    fn take(&mut self, kinds: &[StepKind], place: u64, letter: Letter) -> Result<(), ProofFault>
        requires kinds { length kinds.now ≤ MOST_NUMBERS }
        requires small { IsSmall self.old }
        requires digit { IsDigit letter }
        ensures value { Takes kinds.now place letter self.old self.new result }
        ensures small { OnOk result (IsSmall self.new) }
    {
        match letter {
            Letter::Last(digit) => {
                let Some(step) = step_numbered(kinds, &self.tags, 20 * self.number + digit - 1)
                else {
                    return Err(ProofFault::NumberOutOfRange(place));
                };
                push_step(&mut self.steps, step)?;
                self.number = 0;
                self.complete = true;
            }
            Letter::Lead(digit) => {
                self.number = (5 * self.number + digit).min(MOST);
                self.complete = false;
            }
            Letter::Tag => {
                if !self.complete {
                    return Err(ProofFault::TagMisplaced(place));
                }
                push_tag(&mut self.tags, self.steps.len() as u32)?;
                tag_last(&mut self.steps);
                self.complete = false;
            }
            Letter::Query => {
                if self.number != 0 {
                    return Err(ProofFault::BadLetter(place));
                }
                push_step(&mut self.steps, StepKind::Unknown)?;
                self.complete = false;
            }
            Letter::Other => return Err(ProofFault::BadLetter(place)),
        }
        Ok(())
    }
}

/// The steps that letters spell, where the first numbers stand for these statements.
pub(crate) fn read(
    alloc: Global,
    kinds: &[StepKind],
    letters: Letters<'_>,
) -> Result<Vec<ProofStep>, ProofFault>
    requires kinds { length kinds.now ≤ MOST_NUMBERS }
    ensures { GivesSteps result (read kinds.now letters.entry) }
{
    let mut letters = letters;
    let mut reader = Reader {
        number: 0,
        complete: false,
        tags: Vec::new(alloc),
        steps: Vec::new(alloc),
    };
    while let Some(letter) = letters.next() {
        reader.take(kinds, letter.place, letter_of(letter.byte))?;
    }
    let Reader {
        number,
        complete: _,
        tags: _,
        steps,
    } = reader;
    if number != 0 {
        return Err(ProofFault::NumberOpen);
    }
    if steps.is_empty() {
        return Err(ProofFault::EmptyProof);
    }
    Ok(steps)
}
