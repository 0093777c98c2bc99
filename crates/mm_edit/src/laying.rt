//! One step more of a proof that is laid out by its own steps.

ghost use Rattle.std.specs.Prelude.{◌≡◌, ◌+◌, ◌-◌, ◌<◌, ◌≤◌, ◌++◌, All, IfOk, IfSome, drop, get_or, length, map, not, take, true};
ghost use Rattle.std.specs.List.{sum_by};
ghost use Rattle.mm_scope.specs.Contents.{labels_of};
ghost use Rattle.mm_subst.specs.Statements.{statement_of};
ghost use Rattle.mm_subst.specs.Substitutions.{applied};
ghost use Rattle.mm_unify.specs.Forbidden.{forbidden_by, heeded};
ghost use Rattle.mm_plain.specs.Shape.{size_of};
ghost use Rattle.mm_plain.specs.Valid.{most_steps};
ghost use Rattle.mm_tree.specs.Plans.{IsPlan, grove_of, no_tree};
ghost use Rattle.mm_edit.specs.Built.{is_surely_found};
ghost use Rattle.mm_edit.specs.LaidOut.{AreValues, LaysAgain, LaysKnown, last_targets, value_by};

use mm_scope::{Database, StmtId};
use mm_subst::{Brackets, MOST_SYMBOLS, Subst, TooLongOrMemory, WStr, WSym, apply, statement};
use mm_tree::{Plan, hypotheses, is_source, variable_of};
use mm_unify::Settings;
use std::alloc::{AllocError, Global};

/// The brackets that the settings heed.
pub fn heeded(db: &Database, set: &Settings) -> Option<Brackets>
    ensures { result ≡ heeded db.now set.now.rule }
{
    if set.rule.brackets {
        Some(Brackets::of(db))
    } else {
        None
    }
}

/// Whether a value has its brackets in pairs where these are heeded.
fn is_allowed(pairs: &Option<Brackets>, value: &WStr) -> bool
    ensures { result ≡ not ((forbidden_by pairs.now).at_end value.now) }
{
    match pairs {
        Some(pairs) => pairs.are_balanced(value),
        None => true,
    }
}

/// Whether a search surely finds this text as the value of a work variable.
fn is_surely_found(db: &Database, set: &Settings, pairs: &Option<Brackets>, value: &WStr) -> bool
    requires { pairs.now ≡ heeded db.now set.now.rule }
    ensures { result ≡ is_surely_found db.now set.now value.now }
{
    let _ = db;
    let length = value.symbols().len();
    0 < length
        && length < MOST_SYMBOLS
        && 1 + 2 * length <= set.trials as usize
        && is_allowed(pairs, value)
}

/// Puts the value that a tree for a hypothesis gives: for a `$f` its string without the typecode. False where the variable
/// has a value already, or this one is not surely found.
fn put_value(
    alloc: Global,
    db: &Database,
    set: &Settings,
    pairs: &Option<Brackets>,
    id: StmtId,
    target: &WStr,
    sigma: &mut Subst,
) -> Result<bool, AllocError>
    requires own { id.0 < length (labels_of db.now) }
    requires pairs { pairs.now ≡ heeded db.now set.now.rule }
    ensures values { IfOk result (λ put. put ≡ true → sigma.new ≡ sigma.old ++ value_by db.now id.0 target.now) }
    ensures found { IfOk result (λ put. put ≡ true → All (λ p. is_surely_found db.now set.now p.1 ≡ true) (value_by db.now id.0 target.now)) }
{
    let Some(variable) = variable_of(db, id) else {
        return Ok(true);
    };
    let Some((_, text)) = target.symbols().split_first() else {
        return Ok(false);
    };
    let key = WSym::Var(variable);
    let value = WStr::new(alloc, text)?;
    if sigma.get(key).is_some() || !is_surely_found(db, set, pairs, &value) {
        return Ok(false);
    }
    sigma.put(alloc, key, value)?;
    Ok(true)
}

/// The values that the last trees that stand give, one tree for each of some hypotheses; `None` where one is not surely found,
/// or comes twice.
fn values(
    alloc: Global,
    db: &Database,
    set: &Settings,
    pairs: &Option<Brackets>,
    ids: &[u32],
    plan: &Plan,
) -> Result<Option<Subst>, AllocError>
    requires own { All (λ m. m < length (labels_of db.now)) ids.now }
    requires pairs { pairs.now ≡ heeded db.now set.now.rule }
    requires plan { IsPlan plan.now }
    requires many { length ids.now ≤ length (grove_of plan.now).standing }
    ensures { IfOk result (λ s. IfSome s (AreValues db.now set.now ids.now (last_targets (grove_of plan.now) (length ids.now)))) }
{
    let from = plan.count() - ids.len();
    let mut sigma = Subst::new(alloc);
    for i in 0..ids.len() {
        let target = plan.target(from + i);
        if !put_value(alloc, db, set, pairs, StmtId(ids[i]), target, &mut sigma)? {
            return Ok(None);
        }
    }
    Ok(Some(sigma))
}

/// Whether the last trees that stand prove some hypotheses under a substitution, each its own.
fn fits(db: &Database, ids: &[u32], sigma: &Subst, plan: &Plan) -> bool
    requires own { All (λ m. m < length (labels_of db.now)) ids.now }
    requires plan { IsPlan plan.now }
    requires many { length ids.now ≤ length (grove_of plan.now).standing }
    ensures { result ≡ true → last_targets (grove_of plan.now) (length ids.now) ≡ map (applied sigma.now) (map (statement_of db.now) ids.now) }
{
    let from = plan.count() - ids.len();
    for i in 0..ids.len() {
        let target = plan.target(from + i);
        if !is_source(db, StmtId(ids[i]), sigma, target.symbols()) {
            return false;
        }
    }
    true
}

/// Lays out a step that names a statement; false where its strings don't fit.
pub fn lay_known(
    alloc: Global,
    db: &Database,
    set: &Settings,
    pairs: &Option<Brackets>,
    plan: &mut Plan,
    id: StmtId,
) -> Result<bool, AllocError>
    requires own { id.0 < length (labels_of db.now) }
    requires pairs { pairs.now ≡ heeded db.now set.now.rule }
    requires plan { IsPlan plan.old }
    requires room { sum_by size_of (grove_of plan.old).standing < most_steps }
    ensures plan { IfOk result (λ laid. laid ≡ true → IsPlan plan.new) }
    ensures lays { IfOk result (λ laid. laid ≡ true → LaysKnown db.now set.now id.0 (grove_of plan.old) (grove_of plan.new)) }
{
    let ids = hypotheses(db, id);
    if ids.len() > plan.count() {
        return Ok(false);
    }
    let Some(sigma) = values(alloc, db, set, pairs, ids, plan)? else {
        return Ok(false);
    };
    if !fits(db, ids, &sigma, plan) {
        return Ok(false);
    }
    let said = statement(alloc, db, id)?;
    match apply(alloc, &sigma, &said) {
        Ok(target) => {
            plan.push(alloc, target, id, sigma, ids.len())?;
            Ok(true)
        }
        Err(TooLongOrMemory::TooLong) => Ok(false),
        Err(TooLongOrMemory::Memory) => Err(AllocError),
    }
}

/// Whether labels are the same at two places, for so many.
fn same_labels(labels: &[Option<u32>], a: usize, b: usize, many: usize) -> bool
    requires first { a + many ≤ length labels.now }
    requires second { b + many ≤ length labels.now }
    ensures { result ≡ true → take many (drop a labels.now) ≡ take many (drop b labels.now) }
{
    for i in 0..many {
        if labels[a + i] != labels[b + i] {
            return false;
        }
    }
    true
}

/// Lays out the tree of an earlier step once more, which begins at a place among the labels; false where the labels there are
/// not those that come next.
pub fn lay_again(
    labels: &[Option<u32>],
    plan: &mut Plan,
    begin: usize,
    step: usize,
) -> Result<bool, AllocError>
    requires plan { IsPlan plan.old }
    requires exists { step < length (grove_of plan.old).made }
    requires within { begin + size_of (get_or (grove_of plan.old).made step no_tree) ≤ length labels.now }
    requires room { sum_by size_of (grove_of plan.old).standing ≤ length labels.now }
    requires few { length labels.now ≤ most_steps }
    ensures plan { IfOk result (λ laid. laid ≡ true → IsPlan plan.new) }
    ensures lays { IfOk result (λ laid. laid ≡ true → LaysAgain labels.now begin step (grove_of plan.old) (grove_of plan.new)) }
{
    let at = plan.steps() as usize;
    let many = plan.steps_at(step) as usize;
    if many > labels.len() - at || !same_labels(labels, begin, at, many) {
        return Ok(false);
    }
    plan.push_again(step)?;
    Ok(true)
}
