//! Strings that are typed.

ghost use Rattle.std.specs.Prelude.{◌≡◌, ◌<◌, length, map, IfOk};
ghost use Rattle.mm_scope.specs.Contents.{labels_of};
ghost use Rattle.mm_subst.specs.Parsing.{words, meaning, meanings, IsParsed, AreMeant};

use crate::fault::ParseFault;
use crate::stated::own_symbol;
use crate::string::WStr;
use crate::symbol::WSym;
use crate::work::work_variable;
use mm_scope::{Database, MOST_SYMBOLS, StmtId};
use mm_tokens::is_white;
use std::alloc::{AllocError, Global};

/// The maximal runs of bytes that are no white space, in order.
fn words(alloc: Global, text: &[u8]) -> Result<Vec<&[u8]>, AllocError>
    ensures { IfOk result (λ v. map (λ w. w.now) v.items ≡ words text.now) }
{
    text.split(|byte| is_white(*byte))
        .filter(|word| !word.is_empty())
        .collect(alloc)
}

/// What a word means at a statement: a symbol that is active there, or a work variable with a number below `next`.
fn meaning(db: &Database, at: StmtId, word: &[u8], next: u32) -> Option<WSym>
    requires { at.0 < length (labels_of db.now) }
    ensures { result ≡ meaning db.now at.0 next word.now }
{
    match db.active_symbol(at, word) {
        Some(symbol) => Some(own_symbol(db, symbol)),
        None => work_variable(word, next),
    }
}

/// What words mean, or the first one that means nothing.
fn symbols_of(
    alloc: Global,
    db: &Database,
    at: StmtId,
    words: &[&[u8]],
    next: u32,
) -> Result<WStr, ParseFault>
    requires { at.0 < length (labels_of db.now) }
    ensures { AreMeant result (map (λ w. meaning db.now at.0 next w.now) words.now) }
{
    let mut symbols = Vec::new(alloc);
    for word in words {
        match meaning(db, at, word, next) {
            Some(symbol) => symbols.push(symbol)?,
            None => return Err(ParseFault::BadSymbol(symbols.len() as u64 + 1)),
        }
    }
    Ok(WStr::from_vec(symbols))
}

/// The string that a text writes: its tokens are the maximal runs of bytes that are no white space, and each is a symbol
/// that is active at a statement, by its text, or a work variable `$n`, where n is a number from 1 to below `next` without
/// leading zeros. It is refused where a token is neither, where there is no token, and where there are more than
/// `MOST_SYMBOLS` (Metamath book, section 4.1.4), the first of these that holds.
pub fn parse(
    alloc: Global,
    db: &Database,
    at: StmtId,
    text: &[u8],
    next: u32,
) -> Result<WStr, ParseFault>
    requires { at.0 < length (labels_of db.now) }
    ensures { IsParsed result (meanings db.now at.0 next text.now) }
{
    let words = words(alloc, text)?;
    let string = symbols_of(alloc, db, at, words.as_slice(), next)?;
    if words.is_empty() {
        return Err(ParseFault::Empty);
    }
    if words.len() > MOST_SYMBOLS {
        return Err(ParseFault::TooLong);
    }
    Ok(string)
}
