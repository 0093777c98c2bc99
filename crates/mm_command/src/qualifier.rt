//! Qualifiers with values, and several of them.

ghost use Rattle.std.specs.Prelude.{◌≡◌, ◌+◌, ◌<◌, List, [], ◌∷◌, Option, Result};
ghost use Rattle.mm_command.specs.Grammar.{Value};
ghost use Rattle.mm_command.specs.Table.{choice_qualifiers, improve_qualifiers, minimize_qualifiers, save_qualifiers};
ghost use Rattle.mm_command.specs.Taking.{HasRoom, Adds, GivesGiven};
ghost use Rattle.mm_command.specs.Spelled.{flag_value, number_value};
ghost use Rattle.mm_command.specs.Given.{improve_given, minimize_given, save_given};

use crate::argument::{take_label, take_number};
use crate::fault::{LineFault, wrong};
use crate::limits::{MOST_CHOICE, MOST_DEPTH};
use crate::take::take_qualifier;
use crate::words::Words;

/// What IMPROVE is given.
#[derive(Clone, Copy)]
pub struct ImproveGiven {
    pub depth: Option<u32>,
    pub no_distinct: bool,
}

/// What MINIMIZE_WITH is given behind its pattern.
#[derive(Clone, Copy)]
pub struct MinimizeGiven<'a> {
    pub except: Option<&'a [u8]>,
    pub forbid: Option<&'a [u8]>,
    pub no_new_axioms: Option<&'a [u8]>,
    pub may_grow: bool,
    pub guarded_too: bool,
}

/// What SAVE NEW_PROOF is given.
#[derive(Clone, Copy)]
pub struct SaveGiven {
    pub normal: bool,
    pub compressed: bool,
    pub guarded_too: bool,
}

/// The end of UNIFY STEP, where this choice is given already.
#[tactic(auto, unfolding(crate::specs::Grammar::given_of))]
pub fn take_choice(words: Words<'_>, choice: Option<u32>) -> Result<Option<u32>, LineFault>
    requires { HasRoom words }
    ensures { GivesGiven (λ n. number_value n ∷ []) choice_qualifiers (number_value choice ∷ []) words.entry result }
{
    match take_qualifier(words, &[b"CHOICE"]) {
        Err(fault) => Err(fault),
        Ok(None) => Ok(choice),
        Ok(Some((place, after))) => match add_choice(after, place, words.number + 1, choice) {
            Err(fault) => Err(fault),
            Ok((choice, after)) => take_choice(after, choice),
        },
    }
}

#[tactic(auto, unfolding(crate::specs::Grammar::given_of), using(crate::proofs::Qualifiers::given_value, crate::proofs::Qualifiers::value_fault))]
fn add_choice(
    words: Words<'_>,
    place: usize,
    keyword: u32,
    choice: Option<u32>,
) -> Result<(Option<u32>, Words<'_>), LineFault>
    requires room { HasRoom words }
    requires within { place < 1 }
    ensures { Adds (λ n. number_value n ∷ []) choice_qualifiers (number_value choice ∷ []) place keyword words.entry result }
{
    if choice.is_some() {
        return Err(wrong(keyword));
    }
    let (number, rest) = take_number(words, 1, MOST_CHOICE)?;
    Ok((Some(number), rest))
}

/// The end of IMPROVE, where these are given already: the depth, and whether pairs are to be kept.
#[tactic(auto, unfolding(crate::specs::Grammar::given_of))]
pub fn take_improve(words: Words<'_>, given: ImproveGiven) -> Result<ImproveGiven, LineFault>
    requires { HasRoom words }
    ensures { GivesGiven improve_given improve_qualifiers (improve_given given) words.entry result }
{
    match take_qualifier(words, &[b"DEPTH", b"NO_DISTINCT"]) {
        Err(fault) => Err(fault),
        Ok(None) => Ok(given),
        Ok(Some((place, after))) => match add_improve(after, place, words.number + 1, given) {
            Err(fault) => Err(fault),
            Ok((given, after)) => take_improve(after, given),
        },
    }
}

#[tactic(auto, unfolding(crate::specs::Grammar::given_of), using(crate::proofs::Qualifiers::given_value, crate::proofs::Qualifiers::value_fault))]
fn add_improve(
    words: Words<'_>,
    place: usize,
    keyword: u32,
    given: ImproveGiven,
) -> Result<(ImproveGiven, Words<'_>), LineFault>
    requires room { HasRoom words }
    requires within { place < 2 }
    ensures { Adds improve_given improve_qualifiers (improve_given given) place keyword words.entry result }
{
    match place {
        0 if given.depth.is_none() => {
            let (number, rest) = take_number(words, 0, MOST_DEPTH)?;
            let depth = Some(number);
            Ok((ImproveGiven { depth, ..given }, rest))
        }
        1 if !given.no_distinct => {
            let no_distinct = true;
            Ok((
                ImproveGiven {
                    no_distinct,
                    ..given
                },
                words,
            ))
        }
        _ => Err(wrong(keyword)),
    }
}

/// The end of MINIMIZE_WITH, where these are given already.
#[tactic(auto, unfolding(crate::specs::Grammar::given_of))]
pub fn take_minimize<'a>(
    words: Words<'a>,
    given: MinimizeGiven<'a>,
) -> Result<MinimizeGiven<'a>, LineFault>
    requires { HasRoom words }
    ensures { GivesGiven minimize_given minimize_qualifiers (minimize_given given.entry) words.entry result }
{
    match take_qualifier(
        words,
        &[
            b"EXCEPT",
            b"FORBID",
            b"NO_NEW_AXIOMS_FROM",
            b"MAY_GROW",
            b"OVERRIDE",
        ],
    ) {
        Err(fault) => Err(fault),
        Ok(None) => Ok(given),
        Ok(Some((place, after))) => match add_minimize(after, place, words.number + 1, given) {
            Err(fault) => Err(fault),
            Ok((given, after)) => take_minimize(after, given),
        },
    }
}

#[tactic(auto, unfolding(crate::specs::Grammar::given_of), using(crate::proofs::Qualifiers::given_value, crate::proofs::Qualifiers::value_fault))]
fn add_minimize<'a>(
    words: Words<'a>,
    place: usize,
    keyword: u32,
    given: MinimizeGiven<'a>,
) -> Result<(MinimizeGiven<'a>, Words<'a>), LineFault>
    requires room { HasRoom words }
    requires within { place < 5 }
    ensures { Adds minimize_given minimize_qualifiers (minimize_given given.entry) place keyword words.entry result }
{
    match place {
        0 if given.except.is_none() => {
            let (pattern, rest) = take_label(words)?;
            let except = Some(pattern);
            Ok((MinimizeGiven { except, ..given }, rest))
        }
        1 if given.forbid.is_none() => {
            let (pattern, rest) = take_label(words)?;
            let forbid = Some(pattern);
            Ok((MinimizeGiven { forbid, ..given }, rest))
        }
        2 if given.no_new_axioms.is_none() => {
            let (pattern, rest) = take_label(words)?;
            let no_new_axioms = Some(pattern);
            Ok((
                MinimizeGiven {
                    no_new_axioms,
                    ..given
                },
                rest,
            ))
        }
        3 if !given.may_grow => {
            let may_grow = true;
            Ok((MinimizeGiven { may_grow, ..given }, words))
        }
        4 if !given.guarded_too => {
            let guarded_too = true;
            Ok((
                MinimizeGiven {
                    guarded_too,
                    ..given
                },
                words,
            ))
        }
        _ => Err(wrong(keyword)),
    }
}

/// The end of SAVE NEW_PROOF, where these are given already.
#[tactic(auto, unfolding(crate::specs::Grammar::given_of))]
pub fn take_save(words: Words<'_>, given: SaveGiven) -> Result<SaveGiven, LineFault>
    requires { HasRoom words }
    ensures { GivesGiven save_given save_qualifiers (save_given given) words.entry result }
{
    match take_qualifier(words, &[b"NORMAL", b"COMPRESSED", b"OVERRIDE"]) {
        Err(fault) => Err(fault),
        Ok(None) => Ok(given),
        Ok(Some((place, after))) => match add_save(after, place, words.number + 1, given) {
            Err(fault) => Err(fault),
            Ok((given, after)) => take_save(after, given),
        },
    }
}

#[tactic(auto, unfolding(crate::specs::Grammar::given_of))]
fn add_save(
    words: Words<'_>,
    place: usize,
    keyword: u32,
    given: SaveGiven,
) -> Result<(SaveGiven, Words<'_>), LineFault>
    requires room { HasRoom words }
    requires within { place < 3 }
    ensures { Adds save_given save_qualifiers (save_given given) place keyword words.entry result }
{
    let has_layout = given.normal || given.compressed;
    match place {
        0 if !has_layout => {
            let normal = true;
            Ok((SaveGiven { normal, ..given }, words))
        }
        1 if !has_layout => {
            let compressed = true;
            Ok((
                SaveGiven {
                    compressed,
                    ..given
                },
                words,
            ))
        }
        2 if !given.guarded_too => {
            let guarded_too = true;
            Ok((
                SaveGiven {
                    guarded_too,
                    ..given
                },
                words,
            ))
        }
        _ => Err(wrong(keyword)),
    }
}
