//! The conclusion of an assertion as what is searched for.

ghost use Rattle.std.specs.Prelude.{◌≡◌, [], map, slice_index_or, IfOk};
ghost use Rattle.mm_subst.specs.declared.symbol.WSym.TheVariants.{Const};
ghost use Rattle.mm_improve.specs.Grammars.{item_of, items_of, place, place_or_none, seen_in, seen_with, variable_item};

use mm_chart::Item;
use mm_subst::{Memory, WSym};
use mm_tables::Pair;
use std::alloc::Global;

/// The items of a conclusion, and its variables in order of first occurrence.
#[derive(Drop)]
pub struct Conclusion {
    pub items: Vec<Item>,
    pub order: Vec<u32>,
}

/// The place of a variable among some.
fn place_of(keys: &[u32], number: u32) -> Option<usize>
    ensures { result ≡ place keys.now number }
{
    for i in 0..keys.len() {
        if keys[i] == number {
            return Some(i);
        }
    }
    None
}

fn code_at(codes: &[WSym], key: usize) -> WSym
    ensures { result ≡ slice_index_or codes.now key (Const 0) }
{
    match codes.get(key) {
        Some(code) => *code,
        None => WSym::Const(0),
    }
}

/// What stands for a variable, by its places among all variables and those that occurred before.
fn variable_item(codes: &[WSym], number: u32, key: Option<usize>, seen: Option<usize>) -> Item
    ensures { result ≡ variable_item codes.now number key seen }
{
    match (key, seen) {
        (None, _) => Item::Fixed(WSym::Var(number)),
        (Some(key), None) => Item::New(code_at(codes, key)),
        (Some(_), Some(place)) => Item::Again(place),
    }
}

/// What stands for a symbol.
fn item_of(keys: &[u32], codes: &[WSym], seen: &[u32], symbol: WSym) -> Item
    ensures { result ≡ item_of keys.now codes.now seen.now symbol }
{
    match symbol {
        WSym::Var(number) => variable_item(
            codes,
            number,
            place_of(keys, number),
            place_of(seen, number),
        ),
        WSym::Const(_) | WSym::Work(_) => Item::Fixed(symbol),
    }
}

/// Notes a variable that occurs for the first time.
fn note(keys: &[u32], seen: &mut Vec<u32>, symbol: WSym) -> Result<(), Memory>
    ensures { IfOk result (λ _. seen.new.items ≡ seen_with keys.now seen.old.items symbol) }
{
    if let WSym::Var(number) = symbol {
        if place_of(keys, number).is_some() && place_of(seen.as_slice(), number).is_none() {
            seen.push(number)?;
        }
    }
    Ok(())
}

/// The items of a string, with its variables in order of first occurrence.
pub fn itemized(
    alloc: Global,
    keys: &[u32],
    codes: &[WSym],
    text: &[WSym],
) -> Result<Conclusion, Memory>
    ensures items { IfOk result (λ x. x.items.items ≡ items_of keys.now codes.now [] text.now) }
    ensures order { IfOk result (λ x. x.order.items ≡ seen_in keys.now [] text.now) }
{
    let mut items = Vec::new(alloc);
    let mut order = Vec::new(alloc);
    for symbol in text {
        items.push(item_of(keys, codes, order.as_slice(), *symbol))?;
        note(keys, &mut order, *symbol)?;
    }
    Ok(Conclusion { items, order })
}

/// The place of a variable among some; 0 where it is not there.
pub fn place_or_none(order: &[u32], number: u32) -> usize
    ensures { result ≡ place_or_none (place order.now number) }
{
    match place_of(order, number) {
        Some(place) => place,
        None => 0,
    }
}

/// Pairs of variables by their places.
pub fn apart_of(alloc: Global, order: &[u32], pairs: &[Pair]) -> Result<Vec<(usize, usize)>, Memory>
    ensures { IfOk result (λ v. v.items ≡ map (λ p. (place_or_none (place order.now p.0), place_or_none (place order.now p.1))) pairs.now) }
{
    let mut apart = Vec::new(alloc);
    for pair in pairs {
        apart.push((
            place_or_none(order, pair.first),
            place_or_none(order, pair.second),
        ))?;
    }
    Ok(apart)
}
