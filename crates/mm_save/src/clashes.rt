//! Whether a proof keeps apart the variables that must differ.

ghost use Rattle.std.specs.Prelude.{◌≡◌, ◌<◌, ◌≤◌, All, IfOk, OnOk, Some, length, slice_get};
ghost use Rattle.mm_scope.specs.Contents.{labels_of, stated_at, distinct_at};
ghost use Rattle.mm_subst.specs.Statements.{statement_of};
ghost use Rattle.mm_plain.specs.Shape.{size_of, step_at};
ghost use Rattle.mm_plain.specs.Sources.{label_of, sigma_of};
ghost use Rattle.mm_plain.specs.Valid.{IsValid};
ghost use Rattle.mm_save.specs.Clashes.{HasBoth, clashes_at, clashes_between, clashes_in, clashes_under, clashes_with, variables_of};

use crate::clash::Clash;
use mm_scope::{Database, StmtId, Sym};
use mm_subst::WSym;
use mm_tables::{Gathered, Pair, Parted};
use mm_tree::Tree;
use std::alloc::{AllocError, Global};

/// The variables of two values.
#[derive(Drop)]
struct Sides {
    left: Gathered,
    right: Gathered,
}

/// Finds the variables of a string, each once, in order of first occurrence.
fn find_variables(found: &mut Gathered, symbols: &[WSym]) -> Result<(), AllocError>
    ensures { OnOk result (found.new ≡ variables_of symbols.now) }
{
    found.clear();
    for symbol in symbols {
        if let WSym::Var(number) = *symbol {
            found.insert(number)?;
        }
    }
    Ok(())
}

/// The first clash of a variable with one of others.
fn clash_with(parted: &Parted, step: u32, u: u32, right: &[u32]) -> Option<Clash>
    ensures { result ≡ slice_get (clashes_with parted.now step right.now u) 0 }
{
    for v in right {
        if !parted.are_distinct(u, *v) {
            return Some(Clash {
                step,
                first: Sym(u),
                second: Sym(*v),
            });
        }
    }
    None
}

/// The first clash of one of some variables with one of others.
fn clash_between(parted: &Parted, step: u32, left: &[u32], right: &[u32]) -> Option<Clash>
    ensures { result ≡ slice_get (clashes_between parted.now step left.now right.now) 0 }
{
    for u in left {
        if let Some(clash) = clash_with(parted, step, *u, right) {
            return Some(clash);
        }
    }
    None
}

/// The first clash of the values that a step has for a pair of variables.
fn clash_under(
    alloc: Global,
    parted: &Parted,
    tree: &Tree,
    step: u32,
    pair: &Pair,
    sides: &mut Sides,
) -> Result<Option<Clash>, AllocError>
    requires exists { (1 ≤ step) × (step ≤ size_of tree.now.proof.plain) }
    requires values { HasBoth (sigma_of (step_at tree.now.proof.plain step)) pair.now }
    ensures { IfOk result (λ c. c ≡ slice_get (clashes_under parted.now step (sigma_of (step_at tree.now.proof.plain step)) pair.now) 0) }
{
    let first = tree.value(alloc, step, Sym(pair.first))?;
    let second = tree.value(alloc, step, Sym(pair.second))?;
    find_variables(&mut sides.left, first.symbols())?;
    find_variables(&mut sides.right, second.symbols())?;
    let left = sides.left.as_slice();
    let right = sides.right.as_slice();
    Ok(clash_between(parted, step, left, right))
}

/// The first clash at a step that names a statement.
fn clash_at(
    alloc: Global,
    db: &Database,
    parted: &Parted,
    tree: &Tree,
    step: u32,
    id: StmtId,
    sides: &mut Sides,
) -> Result<Option<Clash>, AllocError>
    requires exists { (1 ≤ step) × (step ≤ size_of tree.now.proof.plain) }
    requires own { id.0 < length (labels_of db.now) }
    requires names { label_of (step_at tree.now.proof.plain step) ≡ Some id.0 }
    requires values { All (HasBoth (sigma_of (step_at tree.now.proof.plain step))) (stated_at db.now id.0).pairs }
    ensures { IfOk result (λ c. c ≡ slice_get (clashes_at db.now parted.now step (step_at tree.now.proof.plain step)) 0) }
{
    for pair in db.frame(id).pairs.as_slice() {
        if let Some(clash) = clash_under(alloc, parted, tree, step, pair, sides)? {
            return Ok(Some(clash));
        }
    }
    Ok(None)
}

/// The first two variables, by step, pair, first and second variable, that a valid proof of a theorem puts together though
/// they must differ (Metamath book, section 4.2.2); `None` where there are none.
pub fn first_clash(
    alloc: Global,
    db: &Database,
    at: StmtId,
    tree: &Tree,
) -> Result<Option<Clash>, AllocError>
    requires own { at.0 < length (labels_of db.now) }
    requires valid { IsValid db.now at.0 (statement_of db.now at.0) tree.now.proof }
    ensures { IfOk result (λ c. c ≡ slice_get (clashes_in db.now (distinct_at db.now at.0) tree.now.proof.plain) 0) }
{
    let parted = db.parted(alloc, at)?;
    let labels = tree.labels(alloc)?;
    let mut sides = Sides {
        left: Gathered::new(alloc),
        right: Gathered::new(alloc),
    };
    for place in 0..tree.size() {
        if let Some(id) = labels[place as usize] {
            let id = StmtId(id);
            if let Some(clash) = clash_at(alloc, db, &parted, tree, place + 1, id, &mut sides)? {
                return Ok(Some(clash));
            }
        }
    }
    Ok(None)
}
