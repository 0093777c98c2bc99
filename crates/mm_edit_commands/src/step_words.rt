//! Which step a word of a command names.

ghost use Rattle.std.specs.Prelude.{◌≡◌, IfOk, is_none};
ghost use Rattle.mm_command.specs.declared.command.StepWord.TheVariants.{Number};
ghost use Rattle.mm_plain.specs.Numbers.{first_from, labels_in};
ghost use Rattle.mm_edit_commands.specs.Steps.{or_no_step, step_number};

use mm_base::Memory;
use mm_command::StepWord;
use mm_tree::Tree;
use std::alloc::Global;

/// The number of no step.
const NO_STEP: u32 = 0;

/// The number of the step that a word names: FIRST and LAST name the first and the last unknown step. It is 0, which no step
/// has, where there is no such step.
#[tactic(auto, unfolding(crate::specs::Steps::step_number))]
pub fn step_number(alloc: Global, tree: &Tree, step: StepWord) -> Result<u32, Memory>
    ensures { IfOk result (λ k. k ≡ step_number tree.now.proof.plain step) }
{
    match step {
        StepWord::Number(number) => Ok(number_there(tree, number)),
        StepWord::First => first_unknown(alloc, tree),
        StepWord::Last => Ok(or_no_step(tree.last_unknown())),
    }
}

fn or_no_step(number: Option<u32>) -> u32
    ensures { result ≡ or_no_step number }
{
    match number {
        Some(number) => number,
        None => NO_STEP,
    }
}

// A number, where a step has it.
#[tactic(auto, unfolding(crate::specs::Steps::step_number))]
fn number_there(tree: &Tree, number: u64) -> u32
    ensures { result ≡ step_number tree.now.proof.plain (Number number) }
{
    if number <= u64::from(tree.size()) {
        number as u32
    } else {
        NO_STEP
    }
}

// The number of the first unknown step.
fn first_unknown(alloc: Global, tree: &Tree) -> Result<u32, Memory>
    ensures { IfOk result (λ k. k ≡ or_no_step (first_from is_none 1 (labels_in tree.now.proof.plain))) }
{
    let _size = tree.size();
    let labels = tree.labels(alloc)?;
    for (place, label) in labels.iter().enumerate() {
        if label.is_none() {
            return Ok(place as u32 + 1);
        }
    }
    Ok(NO_STEP)
}
