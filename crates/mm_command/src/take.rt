//! What takes a keyword, a qualifier or the end off a line.

ghost use Rattle.std.specs.Prelude.{◌≡◌, ◌<◌, true, [], ◌∷◌, map, length, None, IfOk, IfSome};
ghost use Rattle.mm_command.specs.Words.{piece_of};
ghost use Rattle.mm_command.specs.Grammar.{keyword_at};
ghost use Rattle.mm_command.specs.Taking.{HasRoom, Takes, TakesQualifier, GivesGiven};
ghost use Rattle.mm_command.specs.Table.{flag_alone};
ghost use Rattle.mm_command.specs.Spelled.{flag_value};

use crate::fault::{LineFault, wrong};
use crate::keyword::{Unfit, find_keyword};
use crate::words::{Word, Words};

/// The place of the keyword that the word means, at a place for these keywords.
#[tactic(auto, unfolding(crate::specs::Grammar::keyword_at))]
pub fn judge_keyword(word: Word<'_>, number: u32, keywords: &[&[u8]]) -> Result<usize, LineFault>
    ensures value { result ≡ keyword_at (map (λ k. k.now) keywords.now) number (piece_of word.entry) }
    ensures within { IfOk result (λ i. i < length keywords.now) }
{
    match word {
        Word::Plain(bytes) => match find_keyword(bytes, keywords) {
            Ok(place) => Ok(place),
            Err(Unfit::NoKeyword) => Err(LineFault {
                number: 1,
                word: number,
            }),
            Err(Unfit::Ambiguous) => Err(LineFault {
                number: 2,
                word: number,
            }),
        },
        Word::Unclosed => Err(wrong(number)),
        Word::Slash | Word::Equals => Err(LineFault {
            number: 1,
            word: number,
        }),
    }
}

/// Takes a keyword, and answers its place.
#[tactic(auto, unfolding(crate::specs::Grammar::take_one))]
pub fn take_keyword<'a>(
    words: Words<'a>,
    keywords: &[&[u8]],
) -> Result<(usize, Words<'a>), LineFault>
    requires { HasRoom words }
    ensures value { Takes (λ i. i) (keyword_at (map (λ k. k.now) keywords.now)) words.entry result }
    ensures within { IfOk result (λ t. t.0 < length keywords.now) }
{
    match words.next() {
        None => Err(wrong(words.number)),
        Some((word, rest)) => match judge_keyword(word, words.number, keywords) {
            Ok(place) => Ok((place, rest)),
            Err(fault) => Err(fault),
        },
    }
}

/// Takes `/` and the keyword of a qualifier, and answers its place; None at the end of the line.
#[tactic(auto, unfolding(crate::specs::Grammar::given_of, crate::specs::Grammar::take_one), using(crate::proofs::Qualifiers::slash_fault, crate::proofs::Qualifiers::keyword_fault))]
pub fn take_qualifier<'a>(
    words: Words<'a>,
    keywords: &[&[u8]],
) -> Result<Option<(usize, Words<'a>)>, LineFault>
    requires { HasRoom words }
    ensures next { TakesQualifier (map (λ k. k.now) keywords.now) words.entry result }
    ensures within { IfOk result (λ o. IfSome o (λ t. t.0 < length keywords.now)) }
{
    let Some((word, rest)) = words.next() else {
        return Ok(None);
    };
    let Word::Slash = word else {
        return Err(wrong(words.number));
    };
    match take_keyword(rest, keywords) {
        Ok((place, after)) => Ok(Some((place, after))),
        Err(fault) => Err(fault),
    }
}

/// The end of a line that has no qualifiers.
#[tactic(auto, unfolding(crate::specs::Grammar::given_of))]
pub fn end(words: Words<'_>) -> Result<(), LineFault>
    requires { HasRoom words }
    ensures { GivesGiven (λ u. []) [] [] words.entry result }
{
    match words.next() {
        None => Ok(()),
        Some(_) => Err(wrong(words.number)),
    }
}

/// The end of a line that has one qualifier, without a value: whether it is given.
#[tactic(auto, unfolding(crate::specs::Grammar::given_of, crate::specs::Grammar::take_one))]
pub fn take_flag(words: Words<'_>, keyword: &[u8]) -> Result<bool, LineFault>
    requires { HasRoom words }
    ensures { GivesGiven (λ b. flag_value b ∷ []) (flag_alone keyword.now) (None ∷ []) words.entry result }
{
    match words.next() {
        None => Ok(false),
        Some((Word::Slash, rest)) => {
            let (_, rest) = take_keyword(rest, &[keyword])?;
            end_flag(rest, keyword)
        }
        Some(_) => Err(wrong(words.number)),
    }
}

// The end behind the one qualifier, which may not be given again.
#[tactic(auto, unfolding(crate::specs::Grammar::given_of, crate::specs::Grammar::take_one))]
fn end_flag(words: Words<'_>, keyword: &[u8]) -> Result<bool, LineFault>
    requires { HasRoom words }
    ensures { GivesGiven (λ b. flag_value b ∷ []) (flag_alone keyword.now) (flag_value true ∷ []) words.entry result }
{
    match words.next() {
        None => Ok(true),
        Some((Word::Slash, rest)) => {
            let (_, _) = take_keyword(rest, &[keyword])?;
            Err(wrong(rest.number))
        }
        Some(_) => Err(wrong(words.number)),
    }
}
