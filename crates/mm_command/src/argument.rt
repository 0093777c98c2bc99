//! What takes an argument off a line.

ghost use Rattle.std.specs.Prelude.{◌≡◌, ◌≤◌, IfOk, IfSome, IfNone, Ok};
ghost use Rattle.mm_command.specs.Words.{piece_of};
ghost use Rattle.mm_command.specs.Limits.{most_work};
ghost use Rattle.mm_command.specs.Grammar.{Label, File, Text, EqualsSign, WorkVariable, OnOrOff, OffAlone, Number, Bytes, TextAt, EqualsGiven, Numbered, number_at, variable_at, fault, value_at};
ghost use Rattle.mm_command.specs.Taking.{HasRoom, Takes, Gives};
ghost use Rattle.mm_command.specs.Spelled.{switch_value};

use crate::fault::{LineFault, wrong};
use crate::limits::MOST_WORK;
use crate::number::{begins_with_zero, is_number, number_of};
use crate::take::judge_keyword;
use crate::words::{Word, Words};
use mm_base::is_name;

/// Takes a label or a pattern, which may be any word.
#[tactic(auto, unfolding(crate::specs::Grammar::take_one, crate::specs::Grammar::value_at))]
pub fn take_label(words: Words<'_>) -> Result<(&[u8], Words<'_>), LineFault>
    requires { HasRoom words }
    ensures { Takes (λ w. Bytes w.now) (value_at Label) words.entry result }
{
    match words.next() {
        Some((Word::Plain(bytes), rest)) => Ok((bytes, rest)),
        _ => Err(wrong(words.number)),
    }
}

/// Takes the name of a file.
#[tactic(auto, unfolding(crate::specs::Grammar::take_one, crate::specs::Grammar::value_at))]
pub fn take_file(words: Words<'_>) -> Result<(&[u8], Words<'_>), LineFault>
    requires { HasRoom words }
    ensures { Takes (λ w. Bytes w.now) (value_at File) words.entry result }
{
    if let Some((Word::Plain(bytes), rest)) = words.next() {
        if is_name(bytes) {
            return Ok((bytes, rest));
        }
    }
    Err(wrong(words.number))
}

/// Takes a text.
#[tactic(auto, unfolding(crate::specs::Grammar::take_one, crate::specs::Grammar::value_at))]
pub fn take_text(words: Words<'_>) -> Result<(&[u8], Words<'_>), LineFault>
    requires { HasRoom words }
    ensures { Takes (λ w. TextAt w.now words.entry.number) (value_at Text) words.entry result }
{
    match words.next() {
        Some((Word::Plain(bytes), rest)) => Ok((bytes, rest)),
        _ => Err(wrong(words.number)),
    }
}

/// Takes `=`.
#[tactic(auto, unfolding(crate::specs::Grammar::take_one, crate::specs::Grammar::value_at))]
pub fn take_equals(words: Words<'_>) -> Result<((), Words<'_>), LineFault>
    requires { HasRoom words }
    ensures { Takes (λ u. EqualsGiven) (value_at EqualsSign) words.entry result }
{
    match words.next() {
        Some((Word::Equals, rest)) => Ok(((), rest)),
        _ => Err(wrong(words.number)),
    }
}

/// Takes a number from `low` to `high`.
#[tactic(auto, unfolding(crate::specs::Grammar::take_one, crate::specs::Grammar::value_at))]
pub fn take_number(words: Words<'_>, low: u32, high: u32) -> Result<(u32, Words<'_>), LineFault>
    requires { HasRoom words }
    ensures { Takes (λ n. Numbered n) (value_at (Number low high)) words.entry result }
{
    let Some((Word::Plain(bytes), rest)) = words.next() else {
        return Err(wrong(words.number));
    };
    match judge_number(bytes, words.number, u64::from(low), u64::from(high)) {
        Ok(number) => Ok((number as u32, rest)),
        Err(fault) => Err(fault),
    }
}

/// Takes the `$n` of a work variable, and answers n.
#[tactic(auto, unfolding(crate::specs::Grammar::take_one, crate::specs::Grammar::value_at))]
pub fn take_variable(words: Words<'_>) -> Result<(u32, Words<'_>), LineFault>
    requires { HasRoom words }
    ensures { Takes (λ n. Numbered n) (value_at WorkVariable) words.entry result }
{
    let Some((Word::Plain(bytes), rest)) = words.next() else {
        return Err(wrong(words.number));
    };
    match judge_variable(bytes, words.number) {
        Ok(number) => Ok((number as u32, rest)),
        Err(fault) => Err(fault),
    }
}

/// Takes ON or OFF.
#[tactic(auto, unfolding(crate::specs::Grammar::take_one, crate::specs::Grammar::value_at))]
pub fn take_switch(words: Words<'_>) -> Result<(bool, Words<'_>), LineFault>
    requires { HasRoom words }
    ensures { Takes switch_value (value_at OnOrOff) words.entry result }
{
    let Some((word, rest)) = words.next() else {
        return Err(wrong(words.number));
    };
    match judge_keyword(word, words.number, &[b"ON", b"OFF"]) {
        Ok(place) => Ok((place == 0, rest)),
        Err(fault) => Err(fault),
    }
}

/// Takes OFF, where ON is a keyword too but is not built yet.
#[tactic(auto, unfolding(crate::specs::Grammar::take_one, crate::specs::Grammar::value_at))]
pub fn take_off(words: Words<'_>) -> Result<(bool, Words<'_>), LineFault>
    requires { HasRoom words }
    ensures { Takes switch_value (value_at OffAlone) words.entry result }
{
    let Some((word, rest)) = words.next() else {
        return Err(wrong(words.number));
    };
    match judge_keyword(word, words.number, &[b"ON", b"OFF"]) {
        Ok(0) => Err(wrong(words.number)),
        Ok(_) => Ok((false, rest)),
        Err(fault) => Err(fault),
    }
}

fn judge_number(bytes: &[u8], word: u32, low: u64, high: u64) -> Result<u64, LineFault>
    ensures is { Gives (λ n. Numbered n) result (number_at low high word bytes.now) }
    ensures within { IfOk result (λ n. n ≤ high) }
{
    if is_number(bytes) {
        let number = number_of(bytes);
        if low <= number && number <= high {
            return Ok(number);
        }
    }
    Err(wrong(word))
}

fn judge_variable(bytes: &[u8], word: u32) -> Result<u64, LineFault>
    ensures is { Gives (λ n. Numbered n) result (variable_at word bytes.now) }
    ensures within { IfOk result (λ n. n ≤ most_work) }
{
    match bytes {
        [b'$', digits @ ..] => {
            if begins_with_zero(digits) {
                return Err(wrong(word));
            }
            judge_number(digits, word, 1, MOST_WORK)
        }
        _ => Err(wrong(word)),
    }
}
