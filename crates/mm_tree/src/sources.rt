//! Strings beside sources: whether a string is a statement under a substitution. No source is built.

ghost use Rattle.std.specs.Prelude.{◌≡◌, ◌<◌, ◌++◌, List, length, false, IfOk, MatchOption};
ghost use Rattle.std.specs.Cmp.Lexicographic.{pointwise};
ghost use Rattle.mm_scope.specs.Contents.{labels_of};
ghost use Rattle.mm_subst.specs.Statements.{statement_of};
ghost use Rattle.mm_subst.specs.Substitutions.{applied, value_at};
ghost use Rattle.mm_subst.specs.Symbols.{is_same};
ghost use Rattle.mm_subst.specs.declared.symbol.WSym.{WSym};
ghost use Rattle.mm_tree.specs.Lines.{values_now};
ghost use Rattle.mm_tree.specs.Meanings.{text_now, sigma_now};

use crate::line::{Line, replaced, string_now, value};
use crate::node::has_values_with_work;
use crate::timed::{Text, Values};
use mm_scope::{Database, StmtId, Sym};
use mm_subst::{Subst, WStr, WSym, has_work, own_symbol, statement};
use std::alloc::{AllocError, Global};

/// What is left of a string behind another; `None` where it does not begin with it.
pub fn behind<'a>(whole: &'a [WSym], front: &[WSym]) -> Option<&'a [WSym]>
    ensures { MatchOption result ((s : List WSym) → pointwise is_same whole.now (front.now ++ s) ≡ false) (λ left. (s : List WSym) → pointwise is_same whole.now (front.now ++ s) ≡ pointwise is_same left.now s) }
{
    let mut left = whole;
    for symbol in front {
        let Some((first, rest)) = left.split_first() else {
            return None;
        };
        if !first.is_same(*symbol) {
            return None;
        }
        left = rest;
    }
    Some(left)
}

/// Whether a string is a statement under a substitution.
#[tactic(auto, unfolding(mm_subst::specs::Statements::statement_of))]
pub fn is_source(db: &Database, id: StmtId, sigma: &Subst, target: &[WSym]) -> bool
    requires { id.0 < length (labels_of db.now) }
    ensures { result ≡ pointwise is_same target.now (applied sigma.now (statement_of db.now id.0)) }
{
    let mut left = target;
    let frame = db.frame(id);
    for number in frame.conclusion.as_slice() {
        let symbol = own_symbol(db, Sym(*number));
        let Some(rest) = behind(left, value(sigma, &symbol)) else {
            return false;
        };
        left = rest;
    }
    left.is_empty()
}

/// A substitution as it is in a version.
pub fn values_now(alloc: Global, line: &Line<'_>, sigma: &Values) -> Result<Subst, AllocError>
    ensures { IfOk result (λ s. s ≡ sigma_now line.now sigma.now) }
{
    let mut now = Subst::new(alloc);
    for (key, value) in sigma.pairs.pairs() {
        let value = string_now(alloc, line, sigma.birth, value)?;
        now.put(alloc, *key, value)?;
    }
    Ok(now)
}

/// The value of a key in a version; `None` where no pair has the key.
pub fn value_now(
    alloc: Global,
    line: &Line<'_>,
    sigma: &Values,
    key: WSym,
) -> Result<Option<WStr>, AllocError>
    ensures { IfOk result (λ s. s ≡ value_at (sigma_now line.now sigma.now) key) }
{
    let Some(value) = sigma.pairs.get(key) else {
        return Ok(None);
    };
    let now = string_now(alloc, line, sigma.birth, value)?;
    Ok(Some(now))
}

/// Whether a string is a statement under a substitution, both as they are in a version. Nothing is built where they have no
/// work variables.
pub fn fits(
    alloc: Global,
    db: &Database,
    line: &Line<'_>,
    target: &Text,
    id: StmtId,
    sigma: &Values,
) -> Result<bool, AllocError>
    requires { id.0 < length (labels_of db.now) }
    ensures { IfOk result (λ b. b ≡ pointwise is_same (text_now line.now target.now) (applied (sigma_now line.now sigma.now) (statement_of db.now id.0))) }
{
    if !has_work(&target.string) && !has_values_with_work(&sigma.pairs) {
        return Ok(is_source(db, id, &sigma.pairs, target.string.symbols()));
    }
    let target = string_now(alloc, line, target.birth, &target.string)?;
    let sigma = values_now(alloc, line, sigma)?;
    Ok(is_source(db, id, &sigma, target.symbols()))
}

/// What a statement says under a substitution as it is in a version.
pub fn source(
    alloc: Global,
    db: &Database,
    line: &Line<'_>,
    id: StmtId,
    sigma: &Values,
) -> Result<WStr, AllocError>
    requires { id.0 < length (labels_of db.now) }
    ensures { IfOk result (λ s. s ≡ applied (sigma_now line.now sigma.now) (statement_of db.now id.0)) }
{
    let sigma = values_now(alloc, line, sigma)?;
    let statement = statement(alloc, db, id)?;
    replaced(alloc, &sigma, &statement)
}
