//! The search for the first match of a least rank.

ghost use Rattle.std.specs.Prelude.{◌≡◌, ◌<◌, ◌≤◌, ℕ, Bool, List, [], ◌∷◌, ◌++◌, length, map, slice_index_or, nat_le, ◌&&◌, IfOk, IfSome, OnOk, MatchOption, Some, None};
ghost use Rattle.std.specs.List.{list_all};
ghost use Rattle.mm_unify.specs.Matching.{behind};
ghost use Rattle.mm_unify.specs.Parts.{part};
ghost use Rattle.mm_chart.specs.Options.{or_else};
ghost use Rattle.mm_chart.specs.Items.{Goal, fits, matches};
ghost use Rattle.mm_chart.specs.declared.grammar.Item.TheVariants.{New};
ghost use Rattle.mm_chart.specs.Charts.{Agrees, AreWithin, FindsAt, found_of, goals_of, less};

use crate::fitting::{fits, value_of};
use crate::grammar::{Item, Rules};
use crate::table::{Part, Rows};
use mm_subst::{Memory, WSym};
use std::alloc::Global;
use std::marker::Model;
use std::slice;

/// The first match of a least rank, and the greatest rank of its parts.
#[derive(Drop)]
pub struct Found {
    pub rank: u64,
    pub parts: Vec<Part>,
}

impl Model for Found {
    ghost use Rattle.std.specs.Prelude.{ℕ, List};
    ghost use Rattle.mm_chart.specs.declared.table.Part.{Part};

    ghost Value = { ℕ × List Part };

    ghost view = { λ f. (f.rank, f.parts.items) };
}

/// Where a string ends that stands at a place of a range.
fn end_of(piece: &[WSym], text: &[WSym], at: usize, to: usize) -> Option<usize>
    requires ordered { at ≤ to }
    requires within { to ≤ length text.now }
    ensures { MatchOption result (behind piece.now (part text.now at to) ≡ None) (λ e. (at ≤ e) × (e ≤ to) × (behind piece.now (part text.now at to) ≡ Some (part text.now e to))) }
{
    let mut end = at;
    for symbol in piece {
        if end == to || !symbol.is_same(text[end]) {
            return None;
        }
        end += 1;
    }
    Some(end)
}

fn lesser(one: Option<Found>, other: Option<Found>) -> Option<Found>
    ensures { result ≡ less one other }
{
    match (one, other) {
        (None, other) => other,
        (Some(one), None) => Some(one),
        (Some(one), Some(other)) => {
            if other.rank < one.rank {
                Some(other)
            } else {
                Some(one)
            }
        }
    }
}

fn greater(one: u64, other: u64) -> u64
    ensures { (r : ℕ) → nat_le result r ≡ (nat_le one r && nat_le other r) }
{
    if one < other { other } else { one }
}

/// The first match of a least rank, of the rest of a conclusion with a range of the text; `parts` are those so far, and
/// `so_far` is the greatest of their ranks.
#[cycle(walk)]
pub fn walk(
    alloc: Global,
    rules: &Rules,
    text: &[WSym],
    rows: &Rows,
    items: &[Item],
    pairs: &[(usize, usize)],
    at: usize,
    to: usize,
    parts: &mut Vec<Part>,
    so_far: u64,
) -> Result<Option<Found>, Memory>
    requires ordered { at ≤ to }
    requires within { to ≤ length text.now }
    requires parts { AreWithin text.now parts.old.items }
    ensures found { IfOk result (λ f. (p : Goal → Bool) (r : ℕ) → Agrees p r text.now rows.now at to → list_all p (goals_of text.now parts.old.items) ≡ nat_le so_far r → FindsAt r (list_all p) (matches (fits rules.now pairs.now) items.now (goals_of text.now parts.old.items) (part text.now at to)) (found_of text.now f)) }
    ensures placed { IfOk result (λ f. IfSome f (λ x. AreWithin text.now x.1)) }
    ensures parts { OnOk result (parts.new.items ≡ parts.old.items) }
{
    let Some((item, rest)) = items.split_first() else {
        if at < to {
            return Ok(None);
        }
        if !fits(alloc, rules, pairs, parts.as_slice(), text)? {
            return Ok(None);
        }
        let parts = Vec::from_slice(alloc, parts.as_slice())?;
        return Ok(Some(Found {
            rank: so_far,
            parts,
        }));
    };
    match *item {
        Item::Fixed(symbol) => match end_of(slice::from_ref(&symbol), text, at, to) {
            Some(end) => walk(
                alloc, rules, text, rows, rest, pairs, end, to, parts, so_far,
            ),
            None => Ok(None),
        },
        Item::Again(key) => {
            let value = value_of(parts.as_slice(), text, key);
            match end_of(value, text, at, to) {
                Some(end) => walk(
                    alloc, rules, text, rows, rest, pairs, end, to, parts, so_far,
                ),
                None => Ok(None),
            }
        }
        Item::New(code) => extend(
            alloc, rules, text, rows, code, rest, pairs, at, to, parts, so_far,
        ),
    }
}

/// The same at the first occurrence of a variable: it takes each part that has a rank, the shortest first.
#[cycle(walk)]
fn extend(
    alloc: Global,
    rules: &Rules,
    text: &[WSym],
    rows: &Rows,
    code: WSym,
    rest: &[Item],
    pairs: &[(usize, usize)],
    at: usize,
    to: usize,
    parts: &mut Vec<Part>,
    so_far: u64,
) -> Result<Option<Found>, Memory>
    requires ordered { at ≤ to }
    requires within { to ≤ length text.now }
    requires parts { AreWithin text.now parts.old.items }
    ensures found { IfOk result (λ f. (p : Goal → Bool) (r : ℕ) → Agrees p r text.now rows.now at to → list_all p (goals_of text.now parts.old.items) ≡ nat_le so_far r → FindsAt r (list_all p) (matches (fits rules.now pairs.now) (New code ∷ rest.now) (goals_of text.now parts.old.items) (part text.now at to)) (found_of text.now f)) }
    ensures placed { IfOk result (λ f. IfSome f (λ x. AreWithin text.now x.1)) }
    ensures parts { OnOk result (parts.new.items ≡ parts.old.items) }
{
    let mut found = None;
    let mut last = at;
    while let Some((next, rank)) = rows.next(at, code, last, to) {
        parts.push(Part {
            code,
            from: at,
            to: next,
        })?;
        let rank = greater(so_far, rank);
        let more = walk(alloc, rules, text, rows, rest, pairs, next, to, parts, rank)?;
        parts.pop();
        found = lesser(found, more);
        last = next;
    }
    Ok(found)
}
