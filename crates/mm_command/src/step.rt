//! What takes a step off a line.

ghost use Rattle.mm_command.specs.Words.{piece_of};
ghost use Rattle.mm_command.specs.Grammar.{Step, StepOrAll, value_at};
ghost use Rattle.mm_command.specs.Taking.{HasRoom, Takes, Gives};
ghost use Rattle.mm_command.specs.Spelled.{step_value, step_or_all};

use crate::command::StepWord;
use crate::fault::{LineFault, wrong};
use crate::number::{begins_with_digit, is_number, number_of};
use crate::take::judge_keyword;
use crate::words::{Word, Words};

/// Takes a step.
#[tactic(auto, unfolding(crate::specs::Grammar::take_one))]
pub fn take_step(words: Words<'_>) -> Result<(StepWord, Words<'_>), LineFault>
    requires { HasRoom words }
    ensures { Takes step_value (value_at Step) words.entry result }
{
    let Some((word, rest)) = words.next() else {
        return Err(wrong(words.number));
    };
    match judge_step(word, words.number) {
        Ok(step) => Ok((step, rest)),
        Err(fault) => Err(fault),
    }
}

/// Takes a step or ALL, which is None.
#[tactic(auto, unfolding(crate::specs::Grammar::take_one))]
pub fn take_step_or_all(words: Words<'_>) -> Result<(Option<StepWord>, Words<'_>), LineFault>
    requires { HasRoom words }
    ensures { Takes step_or_all (value_at StepOrAll) words.entry result }
{
    let Some((word, rest)) = words.next() else {
        return Err(wrong(words.number));
    };
    match judge_step_or_all(word, words.number) {
        Ok(step) => Ok((step, rest)),
        Err(fault) => Err(fault),
    }
}

#[tactic(auto, unfolding(crate::specs::Grammar::value_at))]
fn judge_step(word: Word<'_>, number: u32) -> Result<StepWord, LineFault>
    ensures { Gives step_value result (value_at Step number (piece_of word.entry)) }
{
    if let Word::Plain(bytes) = word {
        if begins_with_digit(bytes) {
            if is_number(bytes) {
                return Ok(StepWord::Number(number_of(bytes)));
            }
            return Err(wrong(number));
        }
    }
    match judge_keyword(word, number, &[b"FIRST", b"LAST"]) {
        Ok(0) => Ok(StepWord::First),
        Ok(_) => Ok(StepWord::Last),
        Err(fault) => Err(fault),
    }
}

#[tactic(auto, unfolding(crate::specs::Grammar::value_at))]
fn judge_step_or_all(word: Word<'_>, number: u32) -> Result<Option<StepWord>, LineFault>
    ensures { Gives step_or_all result (value_at StepOrAll number (piece_of word.entry)) }
{
    if let Word::Plain(bytes) = word {
        if begins_with_digit(bytes) {
            if is_number(bytes) {
                return Ok(Some(StepWord::Number(number_of(bytes))));
            }
            return Err(wrong(number));
        }
    }
    match judge_keyword(word, number, &[b"FIRST", b"LAST", b"ALL"]) {
        Ok(0) => Ok(Some(StepWord::First)),
        Ok(1) => Ok(Some(StepWord::Last)),
        Ok(_) => Ok(None),
        Err(fault) => Err(fault),
    }
}
