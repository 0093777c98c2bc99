//! The search for unifiers.

ghost use Rattle.std.specs.Prelude.{◌≡◌, ◌⊎◌, ◌≤◌, false, IfOk, IfNone};
ghost use Rattle.mm_subst.specs.Symbols.{has_work};
ghost use Rattle.mm_unify.specs.Forbidden.{forbidden_by};
ghost use Rattle.mm_unify.specs.Listings.{answer};
ghost use Rattle.mm_unify.specs.Trials.{is_spent, fewer};
ghost use Rattle.mm_unify.specs.Frames.{first_of};
ghost use Rattle.mm_unify.specs.Search.{plain_count};

use crate::frame::{Frame, Kind};
use crate::listing::Ended;
use crate::numbers::numbers_of;
use crate::values::Values;
use crate::visit::{bind, step};
use crate::waiting::{Waiting, plain_symbols};
use mm_subst::{Brackets, Memory, WStr, WSym, has_work};
use std::alloc::Global;

fn is_spent(left: Option<u32>) -> bool
    ensures { result ≡ is_spent left }
{
    match left {
        None => false,
        Some(n) => n == 0,
    }
}

/// One trial less.
fn fewer(left: Option<u32>) -> Option<u32>
    ensures { result ≡ fewer left }
{
    match left {
        None => None,
        Some(n) => Some(n.saturating_sub(1)),
    }
}

/// The search between any two strings.
fn search_nodes(
    alloc: Global,
    pairs: &Option<Brackets>,
    a: &WStr,
    b: &WStr,
    trials: Option<u32>,
) -> Result<(Vec<Values>, Ended), Memory>
    requires { IfNone trials ((has_work a.now ≡ false) ⊎ (has_work b.now ≡ false)) }
    ensures found { IfOk result (λ t. t.0.items ≡ (answer (forbidden_by pairs.now) trials a.now b.now).found) }
    ensures ended { IfOk result (λ t. t.1 ≡ (answer (forbidden_by pairs.now) trials a.now b.now).ended) }
{
    let mut found = Vec::new(alloc);
    let mut nodes = Vec::new(alloc);
    nodes.push(Waiting::first(alloc, a, b)?)?;
    let mut left = trials;
    while let Some(node) = nodes.pop() {
        if is_spent(left) {
            return Ok((found, Ended::Trials));
        }
        if node.is_too_long() {
            return Ok((found, Ended::Length));
        }
        node.visit(alloc, pairs, &mut nodes, &mut found)?;
        left = fewer(left);
    }
    Ok((found, Ended::Whole))
}

fn first_frame(pattern: &[WSym]) -> Frame
    ensures { result ≡ first_of (plain_count pattern.now) }
{
    Frame {
        kind: Kind::First,
        depth: 0,
        at: 0,
        number: 0,
        from: 0,
        to: 0,
        total: plain_symbols(pattern),
        early: false,
    }
}

/// The search between a pattern and a target that has no work variable. Each value is a part of the target, so no string
/// is made before a solution is listed.
fn search_parts(
    alloc: Global,
    pairs: &Option<Brackets>,
    pattern: &[WSym],
    target: &[WSym],
    trials: Option<u32>,
) -> Result<(Vec<Values>, Ended), Memory>
    requires { has_work target.now ≡ false }
    ensures found { IfOk result (λ t. t.0.items ≡ (answer (forbidden_by pairs.now) trials pattern.now target.now).found) }
    ensures ended { IfOk result (λ t. t.1 ≡ (answer (forbidden_by pairs.now) trials pattern.now target.now).ended) }
{
    let keys = numbers_of(alloc, pattern, target)?;
    let mut found = Vec::new(alloc);
    let mut path = Vec::new(alloc);
    let mut frames = Vec::new(alloc);
    frames.push(first_frame(pattern))?;
    let mut left = trials;
    while let Some(frame) = frames.pop() {
        if is_spent(left) {
            return Ok((found, Ended::Trials));
        }
        if frame.is_too_long() {
            return Ok((found, Ended::Length));
        }
        bind(target, &frame, &mut path)?;
        step(
            alloc,
            pairs,
            keys.as_slice(),
            pattern,
            target,
            path.as_slice(),
            &frame,
            &mut frames,
            &mut found,
        )?;
        left = fewer(left);
    }
    Ok((found, Ended::Whole))
}

/// The search, and how it ended.
pub fn search(
    alloc: Global,
    pairs: Option<Brackets>,
    a: &WStr,
    b: &WStr,
    trials: Option<u32>,
) -> Result<(Vec<Values>, Ended), Memory>
    requires { IfNone trials ((has_work a.now ≡ false) ⊎ (has_work b.now ≡ false)) }
    ensures found { IfOk result (λ t. t.0.items ≡ (answer (forbidden_by pairs) trials a.now b.now).found) }
    ensures ended { IfOk result (λ t. t.1 ≡ (answer (forbidden_by pairs) trials a.now b.now).ended) }
{
    if !has_work(b) {
        return search_parts(alloc, &pairs, a.symbols(), b.symbols(), trials);
    }
    if !has_work(a) {
        return search_parts(alloc, &pairs, b.symbols(), a.symbols(), trials);
    }
    search_nodes(alloc, &pairs, a, b, trials)
}
