//! The list of unifiers of two strings.

ghost use Rattle.std.specs.Prelude.{◌≡◌, ◌≢◌, ◌≤◌, ◌⊎◌, false, All, OnSome, IfSome, IfOk, IfNone};
ghost use Rattle.mm_subst.specs.Symbols.{has_work};
ghost use Rattle.mm_subst.specs.Substitutions.{applied};
ghost use Rattle.mm_unify.specs.declared.listing.Ended.TheVariants.{Whole, Trials};
ghost use Rattle.mm_unify.specs.Unifying.{IsComplete};
ghost use Rattle.mm_unify.specs.Forbidden.{forbidden};
ghost use Rattle.mm_unify.specs.Listings.{answer, HasKeys, HasBalanced};

use crate::brackets::heeded;
use crate::found::substitutions;
use crate::search::search;
use mm_scope::Database;
use mm_subst::{Brackets, Memory, Subst, WStr};
use std::alloc::Global;

/// Which unifiers are listed.
#[derive(Clone, Copy, Debug, PartialEq, Eq)]
pub struct Rule {
    /// Whether the values must be balanced in each of the pairs `( )`, `{ }` and `[ ]`.
    pub brackets: bool,
}

/// How unifiers are searched for.
#[derive(Clone, Copy, Debug, PartialEq, Eq)]
pub struct Settings {
    pub rule: Rule,
    /// How many trials a search has: 1 or more.
    pub trials: u32,
}

/// How a search ended.
#[derive(Clone, Copy, Debug, PartialEq, Eq)]
pub enum Ended {
    /// All of it was searched.
    Whole,
    /// A node after the last trial would be visited.
    Trials,
    /// A value would have more than `MOST_SYMBOLS` symbols.
    Length,
}

/// The unifiers found, in order, and how the search ended.
#[derive(Debug, Drop)]
pub struct Listing {
    pub found: Vec<Subst>,
    pub ended: Ended,
}

/// The unifiers of two strings, in the order of the search: at two heads that differ, `x` on the left and `y` on the
/// right, first `x := y`, then `x := y x`, then `y := x y`, or, where `x` is no work variable, `y := x` and then
/// `y := x y`. Each node visited is one trial; with no limit of trials one of the strings must be free of work variables.
///
/// A unifier has one pair for each work variable of the two strings, in order of number, also where the value is the
/// variable itself.
pub fn unifiers(
    alloc: Global,
    db: &Database,
    a: &WStr,
    b: &WStr,
    rule: Rule,
    trials: Option<u32>,
) -> Result<Listing, Memory>
    requires finite { IfNone trials ((has_work a.now ≡ false) ⊎ (has_work b.now ≡ false)) }
    ensures found { IfOk result (λ t. t.found.items ≡ (answer (forbidden db.now rule) trials a.now b.now).found) }
    ensures ended { IfOk result (λ t. t.ended ≡ (answer (forbidden db.now rule) trials a.now b.now).ended) }
    ensures unlimited { IfOk result (λ t. IfNone trials (t.ended ≢ Trials)) }
    ensures sound { IfOk result (λ t. All (λ u. applied u a.now ≡ applied u b.now) t.found.items) }
    ensures keys { IfOk result (λ t. All (HasKeys a.now b.now) t.found.items) }
    ensures complete { IfOk result (λ t. rule.brackets ≡ false → t.ended ≡ Whole → IsComplete a.now b.now t.found.items) }
    ensures balanced { IfOk result (λ t. t.ended ≡ Whole → (has_work a.now ≡ false) ⊎ (has_work b.now ≡ false) → HasBalanced (forbidden db.now rule) a.now b.now t.found.items) }
{
    let (found, ended) = search(alloc, heeded(db, rule), a, b, trials)?;
    let found = substitutions(alloc, found)?;
    Ok(Listing { found, ended })
}
