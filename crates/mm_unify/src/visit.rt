//! A visit in a search against a string without work variables.

ghost use Rattle.std.specs.Prelude.{◌≡◌, ◌≤◌, ◌++◌, false, take, length, IfOk};
ghost use Rattle.mm_subst.specs.Substitutions.{applied};
ghost use Rattle.mm_unify.specs.Variables.{numbers};
ghost use Rattle.mm_unify.specs.Forbidden.{forbidden_by};
ghost use Rattle.mm_unify.specs.Search.{plain_count, visit, is_too_long};
ghost use Rattle.mm_unify.specs.Parts.{IsPlain, AreWithin, parts_of};
ghost use Rattle.mm_unify.specs.Frames.{node_of, some_early, some_long, bound_path, node_in, Fits, Adds, Visits, Lists};
ghost use Rattle.mm_unify.specs.Unifying.{restricted};

use crate::advance::{Open, Reached, advance};
use crate::bound::{Bound, values_of};
use crate::brackets::some_unbalanced;
use crate::frame::{Frame, Kind, grow};
use crate::values::Values;
use mm_subst::{Brackets, Memory, WSym};
use std::alloc::Global;

/// Adds the values as a solution, if they may be listed.
fn list(
    alloc: Global,
    pairs: &Option<Brackets>,
    keys: &[u32],
    target: &[WSym],
    path: &[Bound],
    found: &mut Vec<Values>,
) -> Result<(), Memory>
    requires { AreWithin target.now path.now }
    ensures { IfOk result (λ _. Lists (forbidden_by pairs.now) (restricted (parts_of target.now path.now) keys.now) found.old.items found.new.items) }
{
    let values = values_of(alloc, keys, target, path)?;
    if some_unbalanced(pairs, &values) {
        return Ok(());
    }
    found.push(values)?;
    Ok(())
}

/// Visits a node whose variables are bound as far as they occur, from places to which pattern and target come together.
fn go_on(
    alloc: Global,
    pairs: &Option<Brackets>,
    keys: &[u32],
    pattern: &[WSym],
    target: &[WSym],
    path: &[Bound],
    from: (usize, usize),
    frame: &Frame,
    frames: &mut Vec<Frame>,
    found: &mut Vec<Values>,
) -> Result<(), Memory>
    requires plain { IsPlain target.now }
    requires keys { keys.now ≡ numbers (pattern.now ++ target.now) }
    requires within { AreWithin target.now path.now }
    requires at { from.0 ≤ length pattern.now }
    requires to { from.1 ≤ length target.now }
    requires come { applied (parts_of target.now path.now) (take from.0 pattern.now) ≡ take from.1 target.now }
    requires short { some_long pattern.now target.now (parts_of target.now path.now) ≡ false }
    requires total { frame.now.total ≡ plain_count (applied (parts_of target.now path.now) pattern.now) }
    requires early { frame.now.early ≡ some_early (forbidden_by pairs.now) pattern.now target.now (parts_of target.now path.now) }
    ensures adds { IfOk result (λ _. Adds (forbidden_by pairs.now) pattern.now target.now path.now (node_of pattern.now target.now (parts_of target.now path.now) from.1) frames.old.items frames.new.items) }
    ensures found { IfOk result (λ _. found.new.items ≡ found.old.items ++ (visit (forbidden_by pairs.now) (node_of pattern.now target.now (parts_of target.now path.now) from.1)).found) }
{
    match advance(pattern, target, path, from.0, from.1) {
        Reached::AtEnd(to) => {
            if to < target.len() {
                return Ok(());
            }
            list(alloc, pairs, keys, target, path, found)
        }
        Reached::AtOpen(place) => grow(
            pairs,
            pattern,
            target,
            path,
            place,
            frame.total,
            frame.early,
            frames,
        ),
        Reached::Stuck => Ok(()),
    }
}

/// Binds the variables that are bound in a frame's node: those before it, and its own where its value ends.
pub fn bind(_target: &[WSym], frame: &Frame, path: &mut Vec<Bound>) -> Result<(), Memory>
    requires depth { frame.now.depth ≤ length path.old.items }
    requires to { frame.now.to ≤ length _target.now }
    ensures { IfOk result (λ _. path.new.items ≡ bound_path frame.now.kind frame.now path.old.items) }
{
    path.truncate(frame.depth);
    match frame.kind {
        Kind::Whole => {
            path.push(Bound {
                number: frame.number,
                from: frame.from,
                to: frame.to + 1,
            })?;
            Ok(())
        }
        Kind::First | Kind::Longer => Ok(()),
    }
}

/// Visits the node of a frame whose variables are bound.
pub fn step(
    alloc: Global,
    pairs: &Option<Brackets>,
    keys: &[u32],
    pattern: &[WSym],
    target: &[WSym],
    path: &[Bound],
    frame: &Frame,
    frames: &mut Vec<Frame>,
    found: &mut Vec<Values>,
) -> Result<(), Memory>
    requires plain { IsPlain target.now }
    requires keys { keys.now ≡ numbers (pattern.now ++ target.now) }
    requires depth { frame.now.depth ≤ length path.now }
    requires bound { path.now ≡ bound_path frame.now.kind frame.now path.now }
    requires fits { Fits (forbidden_by pairs.now) pattern.now target.now (take frame.now.depth path.now) frame.now }
    requires short { is_too_long (node_in pattern.now target.now path.now frame.now) ≡ false }
    ensures { IfOk result (λ _. Visits (forbidden_by pairs.now) pattern.now target.now frame.now path.now path.now frames.old.items frames.new.items found.old.items found.new.items) }
{
    match frame.kind {
        Kind::First => go_on(
            alloc,
            pairs,
            keys,
            pattern,
            target,
            path,
            (0, 0),
            frame,
            frames,
            found,
        ),
        Kind::Whole => go_on(
            alloc,
            pairs,
            keys,
            pattern,
            target,
            path,
            (frame.at + 1, frame.to + 1),
            frame,
            frames,
            found,
        ),
        Kind::Longer => {
            let place = Open {
                at: frame.at,
                number: frame.number,
                from: frame.from,
                to: frame.to + 1,
            };
            grow(
                pairs,
                pattern,
                target,
                path,
                place,
                frame.total,
                frame.early,
                frames,
            )
        }
    }
}
