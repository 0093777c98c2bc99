//! How long strings are under one more substitution. None of them is built.

ghost use Rattle.std.specs.Prelude.{◌≡◌, ◌<◌, ◌+◌, length, IfOk, MatchOption};
ghost use Rattle.mm_scope.specs.Contents.{labels_of};
ghost use Rattle.mm_subst.specs.Statements.{statement_of};
ghost use Rattle.mm_subst.specs.Substitutions.{applied};
ghost use Rattle.mm_plain.specs.Lengths.{is_long};
ghost use Rattle.mm_tree.specs.Bound.{has_long_value, is_long_known};
ghost use Rattle.mm_tree.specs.Meanings.{text_now, sigma_now};

use crate::line::{Line, string_now, value};
use crate::node::has_values_with_work;
use crate::sources::values_now;
use crate::timed::{Text, Values};
use mm_scope::{Database, StmtId, Sym};
use mm_subst::{MOST_SYMBOLS, Subst, WStr, WSym, has_work, own_symbol};
use std::alloc::{AllocError, Global};

/// How many more symbols than those of a string there may be; `None` where it has too many already.
fn room_after(theta: &Subst, symbols: &[WSym], room: usize) -> Option<usize>
    ensures { MatchOption result (room < length (applied theta.now symbols.now)) (λ left. left + length (applied theta.now symbols.now) ≡ room) }
{
    let mut left = room;
    for symbol in symbols {
        let size = value(theta, symbol).len();
        if size > left {
            return None;
        }
        left -= size;
    }
    Some(left)
}

/// Whether a string gets too long.
pub fn is_long(theta: &Subst, s: &WStr) -> bool
    ensures { result ≡ is_long (applied theta.now s.now) }
{
    room_after(theta, s.symbols(), MOST_SYMBOLS).is_none()
}

/// Whether what a statement says under a substitution gets too long.
#[tactic(auto, unfolding(mm_subst::specs::Statements::statement_of))]
fn is_long_source(db: &Database, theta: &Subst, id: StmtId, sigma: &Subst) -> bool
    requires { id.0 < length (labels_of db.now) }
    ensures { result ≡ is_long (applied theta.now (applied sigma.now (statement_of db.now id.0))) }
{
    let mut room = MOST_SYMBOLS;
    let frame = db.frame(id);
    for number in frame.conclusion.as_slice() {
        let symbol = own_symbol(db, Sym(*number));
        let Some(left) = room_after(theta, value(sigma, &symbol), room) else {
            return true;
        };
        room = left;
    }
    false
}

/// Whether one of some values gets too long.
fn has_long_value(theta: &Subst, sigma: &Subst) -> bool
    ensures { result ≡ has_long_value theta.now sigma.now }
{
    sigma.pairs().iter().any(|pair| is_long(theta, &pair.1))
}

/// Whether the string of a known step, its source or one of its values gets too long.
fn is_long_step(db: &Database, theta: &Subst, target: &WStr, id: StmtId, sigma: &Subst) -> bool
    requires { id.0 < length (labels_of db.now) }
    ensures { result ≡ is_long_known theta.now target.now (applied sigma.now (statement_of db.now id.0)) sigma.now }
{
    is_long(theta, target) || is_long_source(db, theta, id, sigma) || has_long_value(theta, sigma)
}

/// The same of a step in a version. Nothing is built where it has no work variables.
pub fn is_long_known(
    alloc: Global,
    db: &Database,
    line: &Line<'_>,
    theta: &Subst,
    target: &Text,
    id: StmtId,
    sigma: &Values,
) -> Result<bool, AllocError>
    requires { id.0 < length (labels_of db.now) }
    ensures { IfOk result (λ b. b ≡ is_long_known theta.now (text_now line.now target.now) (applied (sigma_now line.now sigma.now) (statement_of db.now id.0)) (sigma_now line.now sigma.now)) }
{
    if !has_work(&target.string) && !has_values_with_work(&sigma.pairs) {
        return Ok(is_long_step(db, theta, &target.string, id, &sigma.pairs));
    }
    let target = string_now(alloc, line, target.birth, &target.string)?;
    let sigma = values_now(alloc, line, sigma)?;
    Ok(is_long_step(db, theta, &target, id, &sigma))
}
